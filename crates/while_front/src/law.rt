//! A law of the translation of every program that can be read.

ghost use Rattle.while_front.specs.Readable.{ReadableProgramsAreValid};

/// The translation of a program within the limits is valid. The function has no code: its contract is the law.
pub fn readable_programs_are_valid()
    ensures { ReadableProgramsAreValid }
{}
