//! Arithmetic on integers of 128 bits, which answers `None` if the result exceeds them.

ghost use Rattle.std.specs.Prelude.{◌≡◌, neg_ℤ, ◌+ℤ◌, ◌-ℤ◌, ◌*ℤ◌};
ghost use Rattle.std.specs.Int.{int_pow};
ghost use Rattle.affine_turns.specs.Affine.{within};

/// The opposite, or `None` if it exceeds 128 bits, as in the functions below.
pub(crate) fn opposite(x: i128) -> Option<i128>
    ensures { result ≡ within (neg_ℤ x) }
{
    x.checked_neg()
}

/// The sum.
pub(crate) fn sum(x: i128, y: i128) -> Option<i128>
    ensures { result ≡ within (x +ℤ y) }
{
    x.checked_add(y)
}

/// The difference.
pub(crate) fn difference(x: i128, y: i128) -> Option<i128>
    ensures { result ≡ within (x -ℤ y) }
{
    x.checked_sub(y)
}

/// The product.
pub(crate) fn product(x: i128, y: i128) -> Option<i128>
    ensures { result ≡ within (x *ℤ y) }
{
    x.checked_mul(y)
}

/// The power.
pub(crate) fn power(x: i128, exponent: u32) -> Option<i128>
    ensures { result ≡ within (int_pow x exponent) }
{
    x.checked_pow(exponent)
}
