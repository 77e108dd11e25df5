//! Worked values of the texts of bounds.

ghost use Rattle.signed_text.specs.Worked.{TextsAreWorkedOut};

/// The texts of small bounds, as they were worked out by hand. Its contract is these values; it has no code.
pub fn worked_texts_hold()
    ensures { TextsAreWorkedOut }
{}
