//! Guards, programs, configurations and steps as plain data, and laws of valid programs.

ghost use Rattle.its_model.specs.ValidLaws.{AritiesOfValidAgree};
ghost use Rattle.its_model.specs.Worked.{WorkedValues};
ghost use Rattle.its_model.specs.WorkedCosts.{CostsAreWorkedOut};
ghost use Rattle.its_model.specs.WorkedPrograms.{ProgramsAreWorkedOut};
ghost use Rattle.its_model.specs.WorkedSteps.{StepsAreWorkedOut};

/// Worked values of the plain data of relations, atoms, symbols, rules, programs, configurations and steps. The
/// function has no code: its contract is the law.
pub fn worked_values_hold()
    ensures { WorkedValues }
{}

/// Worked values of the validity of programs, and of the differences of comparisons.
pub fn programs_are_worked_out()
    ensures { ProgramsAreWorkedOut }
{}

/// Worked values of the faults of steps, and of the order in which they are reported.
pub fn steps_are_worked_out()
    ensures { StepsAreWorkedOut }
{}

/// Worked values of why a use of a rule may have no cost in 128 bits, and of the programs of costs with their steps.
pub fn costs_are_worked_out()
    ensures { CostsAreWorkedOut }
{}

/// Each rule of a valid program has an update for each place of its target, and a left variable for each place of its
/// source. So in its runs each configuration has one value for each place.
pub fn arities_of_valid_agree()
    ensures { AritiesOfValidAgree }
{}
