//! The laws of affine expressions with one value everywhere.

ghost use Rattle.affine_constants.specs.Constants.{NaturalConstantsAreNatural};
ghost use Rattle.affine_constants.specs.Worked.{ConstantsAreWorkedOut};

/// An affine expression whose value at each unit point is that at the origin, a natural number, has this value
/// everywhere. The function has no code: its contract is the law.
pub fn natural_constants_are_natural()
    ensures { NaturalConstantsAreNatural }
{}

/// Worked values of expressions that are such constants, or aren't.
pub fn constants_are_as_worked_out()
    ensures { ConstantsAreWorkedOut }
{}
