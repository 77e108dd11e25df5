//! Worked values.

ghost use Rattle.signed_values.specs.Worked.{StartsAreWorkedOut, BoundsAreComparedAtThem};

/// Worked values of the lists at which bounds are compared, and of comparing bounds at them. The function has no code:
/// its contract is these values.
pub fn starts_are_as_worked_out()
    ensures starts { StartsAreWorkedOut }
    ensures compared { BoundsAreComparedAtThem }
{}
