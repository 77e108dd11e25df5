//! The limits on the integers of certificates and of points, for the code.

ghost use Rattle.std.specs.Prelude.{◌≡◌};
ghost use Rattle.linear_forms.specs.Limits.{certificate_limit, point_limit};

/// The greatest absolute value of a multiplier, a coefficient, a constant or a denominator of a certificate.
pub const CERTIFICATE_LIMIT: u64 = 1 << 56;

/// The greatest absolute value of a coordinate of a point, of a ray or of a gap, or of its denominator.
pub const POINT_LIMIT: u64 = 1 << 45;

/// The constants of the code are the limits of the definitions. The function has no code: its contract is the law.
pub fn limits_are_as_defined()
    ensures certificates { CERTIFICATE_LIMIT ≡ certificate_limit }
    ensures points { POINT_LIMIT ≡ point_limit }
{}
