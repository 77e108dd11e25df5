//! The law of accepted sections.

ghost use Rattle.refinement_check.specs.Laws.{AcceptedSectionsKeepBounds};

/// Over a valid program an accepted section is certified: the program that it spells simulates the program, its bounds
/// carry over, and facts of copies hold at their symbols; and if its copies have different names, the spelled program
/// is valid.
pub fn accepted_sections_keep_bounds()
    ensures { AcceptedSectionsKeepBounds }
{}
