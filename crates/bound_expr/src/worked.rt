//! Worked values of measures, numbers, tidiness and substitution.

ghost use Rattle.bound_expr.specs.Worked.{MeasuresAreWorkedOut, NumbersAreWorkedOut, TidyBoundsAreWorkedOut};
ghost use Rattle.bound_expr.specs.Worked.{SubstitutionIsWorkedOut};

/// Worked values of the measures of bounds, of properties of their numbers, of whether they are tidy, and of the
/// results of substitutions. Its contract is these values; it has no code.
pub fn bounds_are_as_worked_out()
    ensures measures { MeasuresAreWorkedOut }
    ensures numbers { NumbersAreWorkedOut }
    ensures tidy { TidyBoundsAreWorkedOut }
    ensures substitution { SubstitutionIsWorkedOut }
{}
