//! Laws of the texts of while programs: programs are read as they are written, their expressions and atoms are written
//! as those of integer transition systems and have the same meaning, and small texts have the worked answers.
//!
//! Builds on `while_text` (the grammar of while programs and the effect of each token) and `expr_text` (written
//! expressions and guards). Main guarantee: an accepted text spells its program, and a text that spells a program is
//! accepted as that program unless a token has a fault. The functions here have no code: the contract of each is a
//! law or a list of worked values.
#![tactic(auto)]

ghost use Rattle.while_laws.specs.Laws.{SumsAreOfPrograms, AtomsAreOfPrograms, ValuesAreOfPrograms};
ghost use Rattle.while_laws.specs.Laws.{TestsAreOfPrograms};
ghost use Rattle.while_laws.specs.ProgramLaws.{ProgramsAreDerived, ProgramsAreRead, PositionsAreOfStatements};
ghost use Rattle.while_laws.specs.Worked.{WorkedReadings};

/// The token lists that the grammar of while programs derives as an expression, or as atoms, are exactly those that
/// spell an expression, or atoms, of programs.
pub fn derived_alike()
    ensures sums { SumsAreOfPrograms }
    ensures atoms { AtomsAreOfPrograms }
{}

/// If reading the value of an assignment or an atom of a while program meets no fault, the result is exactly the term
/// of the expression, or the atom, over the inputs.
pub fn read_alike()
    ensures values { ValuesAreOfPrograms }
    ensures tests { TestsAreOfPrograms }
{}

/// The token lists that the grammar of while programs derives as a program are exactly those that spell one; an
/// accepted text spells its program, and a text that spells a program is accepted as that program unless a token has a
/// fault.
pub fn programs_alike()
    ensures derived { ProgramsAreDerived }
    ensures read { ProgramsAreRead }
{}

/// An accepted program has one position for each statement, in the order of the text.
pub fn positions_of_statements()
    ensures { PositionsAreOfStatements }
{}

/// Small texts are read as programs, or refused, with the worked answers.
pub fn worked_readings_hold()
    ensures { WorkedReadings }
{}
