//! The faults of rule numbers and of lines of values in a run file.

ghost use Rattle.std.specs.Prelude.{◌≡◌};
ghost use Rattle.its_model.specs.Views.{program_of};
ghost use Rattle.its_model.specs.model.Programs.{arity_of};
ghost use Rattle.run_replay.specs.Texts.{is_no_rule as is_no_rule_at, wanted as wanted_at};

use its_model::Program;

/// The maximum number of steps that are read.
pub const STEP_LIMIT: usize = 1_000_000;

// The number of places of the start symbol.
fn start_arity(program: &Program) -> u32
    ensures { result ≡ arity_of (program_of program.now) (program_of program.now).start }
{
    let start = program.start as usize;
    if start < program.symbols.len() {
        program.symbols[start].arity
    } else {
        0
    }
}

/// Whether no rule has this number.
pub fn is_no_rule(program: &Program, number: u128) -> bool
    ensures { result ≡ is_no_rule_at (program_of program.now) number }
{
    number == 0 || (program.rules.len() as u128).min(u128::from(u32::MAX)) < number
}

/// The number of values that a line must have: one for each free variable of the rule with this number, or one for each
/// place of the start symbol if there is no such rule.
pub fn wanted(program: &Program, rule: u128) -> u32
    ensures { result ≡ wanted_at (program_of program.now) rule }
{
    if rule == 0 || program.rules.len() as u128 <= rule - 1 {
        return start_arity(program);
    }
    program.rules[rule as usize - 1].free
}
