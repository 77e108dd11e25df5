//! Linear programs that agree, and points, prices and duals over other denominators.

ghost use Rattle.linear_forms.specs.ProgramLaws.{AgreeingProgramsAreTheSame, ScalesCarry};

/// Linear programs with the same rows and columns, and the same numbers inside them, have the same solutions, points of
/// least cost and duals.
pub fn agreeing_programs_are_the_same()
    ensures { AgreeingProgramsAreTheSame }
{}

/// A solution, prices, a point of least cost and a dual remain such when numerators and denominator are scaled by a
/// positive number.
pub fn scales_carry()
    ensures { ScalesCarry }
{}
