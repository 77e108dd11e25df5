//! Laws of proof files and their texts, and worked values.

ghost use Rattle.cert_text.specs.RoundTrips.{FilesAreTheirTexts};
ghost use Rattle.cert_text.specs.Worked.{TextsAndLimitsAreWorkedOut};
ghost use Rattle.cert_text.specs.WorkedFaults.{FilesAreWorkedOut, ProofTextsAreRead};
ghost use Rattle.cert_text.specs.WorkedReading.{ReadingIsWorkedOut};

/// Worked values, on both sides: the texts of small proof files, and which files are within the limits. It has no code:
/// its contract is these values.
pub fn worked_texts_hold()
    ensures { TextsAndLimitsAreWorkedOut }
{}

/// Worked values: the grammar of proof files can be read, each class has a sample piece, small beginnings are cut into
/// these pieces, and texts break off at these positions. It has no code: its contract is these values.
pub fn worked_breaks_hold()
    ensures { ReadingIsWorkedOut }
{}

/// Worked values, on both sides: the result of reading small proof files, a file or its first refusal. It has no code:
/// its contract is these values.
pub fn worked_files_hold()
    ensures { FilesAreWorkedOut }
{}

/// The reader of the proof files of each program satisfies the laws of readers. It has no code: its contract is the
/// law.
pub fn proof_texts_are_read()
    ensures { ProofTextsAreRead }
{}

/// For a valid program with fewer than 2^32 symbols, bytes are read as a proof file exactly if they are its text and
/// the file keeps the limits and its references exist; so reading what was printed of such a file gives that file. It
/// has no code: its contract is the law.
pub fn files_are_their_texts()
    ensures { FilesAreTheirTexts }
{}
