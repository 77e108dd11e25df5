//! Laws of the texts of programs.

ghost use Rattle.expr_text.specs.text_core.Laws.{AnswersAll, OneFirst};
ghost use Rattle.its_text.specs.Grammar.{programs};
ghost use Rattle.its_text.specs.Spelling.{OneProgram, SpelledIsValid};
ghost use Rattle.its_text.specs.Verdicts.{VerdictsAreRight, VerdictsAreSpelled};
ghost use Rattle.its_text.specs.Worked.{WorkedValues};
ghost use Rattle.its_text.specs.WorkedLimits.{LimitsAreWorkedOut};

/// Worked values: the programs of small texts, and the first faults of others, with their positions. The function has
/// no code: its contract is the law.
pub fn worked_values_hold()
    ensures { WorkedValues }
{}

/// A text spells at most one program.
pub fn one_program()
    ensures { OneProgram }
{}

/// Reading tokens in order gives either the sections that they write, which then have no fault and are the only ones,
/// or the first fault.
pub fn texts_have_one_answer()
    ensures { AnswersAll programs }
{}

/// A text has at most one first fault.
pub fn texts_have_one_first_fault()
    ensures { OneFirst programs }
{}

/// A program that a text spells within the limits is valid.
pub fn spelled_programs_are_valid()
    ensures { SpelledIsValid }
{}

/// Worked values: texts at a limit are read, and past it they are refused where the first thing over the limit begins.
pub fn worked_limits_hold()
    ensures { LimitsAreWorkedOut }
{}

/// The verdict on a text is the program, by numbers, of the sections that it writes, if it has no fault; or its first
/// fault; or, if there is no other fault, the missing section or start rule. No other verdict is right. A text that
/// spells a program is read as that program, or has a first fault.
pub fn verdicts_are_right()
    ensures { VerdictsAreRight }
{}

/// A text is read as a program exactly if it spells that program within the limits: a program that is read keeps
/// every limit, and a text whose program keeps all of them has no fault.
pub fn verdicts_are_spelled()
    ensures { VerdictsAreSpelled }
{}
