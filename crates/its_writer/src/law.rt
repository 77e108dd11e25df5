//! Laws of canonical texts.

ghost use Rattle.its_writer.specs.Answers.{GeneratedAreSpelled, SpelledPrograms};
ghost use Rattle.its_writer.specs.Worked.{WorkedValues};

/// Worked values of canonical texts, and of which programs have a text. The function has no code: its contract is the
/// law.
pub fn worked_values_hold()
    ensures { WorkedValues }
{}

/// If a text spells a program, the program's names, numbers and literals are as reading assigns them; and if they are,
/// the program's canonical text spells it.
pub fn spelled_programs_are_spellable()
    ensures { SpelledPrograms }
{}

/// Up to n = 100 the canonical text of the generated program spells it within the limits and has no more bytes than a
/// program file may have, so the program is valid.
pub fn generated_programs_are_spelled()
    ensures { GeneratedAreSpelled }
{}
