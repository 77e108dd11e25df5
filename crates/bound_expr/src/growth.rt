//! Bounds grow weakly with each of their variables.

ghost use Rattle.bound_expr.specs.Growth.{GrowsWithInputs};

/// The law that a bound whose bases are at least 1 grows weakly with each input. Its contract is the law; it does
/// nothing.
pub fn bounds_grow_with_inputs()
    ensures { GrowsWithInputs }
{}
