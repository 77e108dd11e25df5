//! Worked values of the texts of files.

ghost use Rattle.refined_writer.specs.Worked.{WorkedTexts};

/// Worked values: the texts of small files. It has no code: its contract is these values.
pub fn worked_texts_hold()
    ensures { WorkedTexts }
{}
