//! Worked values of sections.

ghost use Rattle.refined_programs.specs.Worked.{FormsAreWritten, EndsArePaths, EndsOfCases};
ghost use Rattle.refined_programs.specs.Worked.{SectionsLoseMultipliers};

/// Worked values of the expressions of affine forms, of the ends of cases and their paths, and of sections without
/// multipliers. It has no code: its contract is these values.
pub fn worked_values_hold()
    ensures forms { FormsAreWritten }
    ensures paths { EndsArePaths }
    ensures ends { EndsOfCases }
    ensures sections { SectionsLoseMultipliers }
{}
