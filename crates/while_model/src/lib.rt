//! A small while language: statements with tests over integer variables, their executions, the integer transition
//! system of a program, and that executions and runs correspond. The functions here have no code: the contract of each
//! is a law or a list of worked values.
#![tactic(auto)]

ghost use Rattle.while_model.specs.Laws.{ExecutionsAreRuns, TotalsBoundExecutions, FreeNamesAreApart};
ghost use Rattle.while_model.specs.Worked.{ProgramsAreTranslated, FreeNamesAreFound, StepsAreExecuted};

/// Executions of a program and runs of its translation correspond: from a value for each input, some execution of n
/// steps ends with given values exactly if some run of n steps does.
pub fn executions_are_runs()
    ensures { ExecutionsAreRuns }
{}

/// A bound on the total cost of the translation bounds the number of steps of each execution.
pub fn totals_bound_executions()
    ensures { TotalsBoundExecutions }
{}

/// The name of the free variable of a translated choice is not that of an input.
pub fn free_names_are_apart()
    ensures { FreeNamesAreApart }
{}

/// The translations and executions of small programs are the worked ones, on both sides.
pub fn worked_values_hold()
    ensures translated { ProgramsAreTranslated }
    ensures free_names { FreeNamesAreFound }
    ensures executed { StepsAreExecuted }
{}
