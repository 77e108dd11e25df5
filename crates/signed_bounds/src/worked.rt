//! Worked values of the definitions.

ghost use Rattle.signed_bounds.specs.Worked.{BoundsHaveTheirValues, InputsAreAbsoluteValues, MeasuresAreWorkedOut};
ghost use Rattle.signed_bounds.specs.Worked.{SquaresAreFound, ProductsAreMultipliedOut, SumsAreCompared};
ghost use Rattle.signed_bounds.specs.Worked.{QuotientsAreCompared, ShapesAreCompared, ConstantPartsAreNumbers};
ghost use Rattle.signed_bounds.specs.Worked.{LimitsOfComparisons};

/// Worked values: the values and the measures of small bounds, as they were worked out by hand. Its contract is these
/// values; it does nothing.
pub fn bounds_are_as_worked_out()
    ensures values { BoundsHaveTheirValues }
    ensures inputs { InputsAreAbsoluteValues }
    ensures measures { MeasuresAreWorkedOut }
{}

/// Worked values: which small bounds the comparison accepts, and which it refuses. Its contract is these answers; it
/// does nothing.
pub fn comparisons_are_as_worked_out()
    ensures squares { SquaresAreFound }
    ensures products { ProductsAreMultipliedOut }
    ensures constant_parts { ConstantPartsAreNumbers }
    ensures sums { SumsAreCompared }
    ensures quotients { QuotientsAreCompared }
    ensures shapes { ShapesAreCompared }
    ensures limits { LimitsOfComparisons }
{}
