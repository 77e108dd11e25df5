//! Worked values of sections and their texts.

ghost use Rattle.section_text.specs.Worked.{WorkedSections};

/// Worked values, on both sides: how bytes are cut, the sections that small texts spell, and the first refusals of
/// other texts. It has no code: its contract is these values.
pub fn worked_sections_hold()
    ensures { WorkedSections }
{}
