//! The laws of signed bounds and of their comparison.

ghost use Rattle.signed_bounds.specs.Inputs.{SignedBoundsKeepValues};
ghost use Rattle.signed_bounds.specs.Safe.{SquaresAreSafe};
ghost use Rattle.signed_bounds.specs.Within.{WithinHolds};
ghost use Rattle.signed_bounds.specs.Reflexive.{BoundsAreWithinThemselves};

/// The law that a bound over absolute values keeps its value as a signed bound. Its contract is the law; it does
/// nothing.
pub fn signed_bounds_keep_values()
    ensures { SignedBoundsKeepValues }
{}

/// The law that an expression that expands to a sum of squares is never negative. Its contract is the law; it does
/// nothing.
pub fn squares_are_safe()
    ensures { SquaresAreSafe }
{}

/// The law of the comparison: if n * den is at most the value of a bound, n is at most the value of each bound that the
/// comparison accepts. Its contract is the law; it does nothing.
pub fn within_holds()
    ensures { WithinHolds }
{}

/// The law that a bound that fits itself is within itself, and, if it isn't too large to be compared and with the
/// divisor den, within its quotient by den. Its contract is the law; it does nothing.
pub fn bounds_are_within_themselves()
    ensures { BoundsAreWithinThemselves }
{}
