//! Laws of reading for two small languages, one of which contains the other.

ghost use Rattle.text_core.specs.Worked.{WorkedValues};
ghost use Rattle.text_core.specs.WorkedLines.{WorkedLines};
ghost use Rattle.text_core.specs.WorkedReaders.{WorkedReaders};

/// Worked values of names, positions among names, digits, tokens and first faults; and the reader of a small language
/// answers exactly the tree or exactly the first fault. The function has no code: its contract is the law.
pub fn worked_values_hold()
    ensures { WorkedValues }
{}

/// Worked values of a reader inside another one: a text of lines, each of them a row of numbers followed by a
/// semicolon.
pub fn worked_lines_hold()
    ensures { WorkedLines }
{}

/// Worked values, on both sides: which fault comes first, where faults are shown, and which limits are kept. Each law
/// of a reader is broken by some reader that differs from the reader of rows in one part.
pub fn worked_readers_hold()
    ensures { WorkedReaders }
{}
