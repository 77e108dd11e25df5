//! Worked values of the texts of lemmas and claims.

ghost use Rattle.potential_writer.specs.Worked.{WorkedTexts};

/// Worked values: the texts of lemmas of each kind and of claims, and that these are read as what they are the texts of. It
/// has no code: its contract is these values.
pub fn worked_texts_hold()
    ensures { WorkedTexts }
{}
