//! Lines and their texts as they were worked out by hand.

ghost use Rattle.potential_text.specs.Worked.{WorkedLines};

/// Worked values, on both sides: how bytes are cut, the lemmas and the claims that small texts spell, and the first
/// refusals of others. It has no code: its contract is the law.
pub fn worked_lines_hold()
    ensures { WorkedLines }
{}
