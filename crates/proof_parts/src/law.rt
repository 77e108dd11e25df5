//! Laws of cuts. The functions here have no code: the contract of each is the law, or values that were worked out by
//! hand.

ghost use Rattle.proof_parts.specs.Laws.{PartsAreUnique};
ghost use Rattle.proof_parts.specs.Worked.{CutsAreWorkedOut};

/// A file has one cut, and its parts one behind the other are the file without its first line.
pub fn parts_are_unique()
    ensures { PartsAreUnique }
{}

/// Cuts of small files.
pub fn cuts_are_worked_out()
    ensures { CutsAreWorkedOut }
{}
