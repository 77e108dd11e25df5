//! The cost of steps, in 128 bits.

ghost use Rattle.std.specs.Prelude.{◌≡◌, ℕ, ◌+◌, ◌++◌, length, option_map, None, Some, ⊤};
ghost use Rattle.std.specs.Prelude.{MatchOption, MatchResult, IfOk, IfErr};
ghost use Rattle.poly_terms.specs.model.Spending.{cost, cost_at, or_zero as or_zero_of};
ghost use Rattle.poly_terms.specs.model.Programs.{arity_of};
ghost use Rattle.poly_terms.specs.Views.{term_of};
ghost use Rattle.its_model.specs.Costs.{written_fault, rule_cost_fault, cost_fault, CostsHaveNoFault};
ghost use Rattle.its_model.specs.StepAnswers.{fault_of};
ghost use Rattle.its_model.specs.Steps.{PastRange, AtomFails};
ghost use Rattle.its_model.specs.Valid.{IsValid, IsValidCost};
ghost use Rattle.its_model.specs.Views.{rule_of, program_of, config_of, step_of};

use crate::program::{Program, Rule};
use crate::run::{Config, Step};
use crate::step::rule_position;
use crate::step_error::StepError;
use poly_terms::{Expr, value_in_parts};

/// The cost of a use of a rule: the value of the rule's cost annotation at the values before the step, or 0 if that is
/// negative; 1 if the rule has no annotation. Whether the guard holds doesn't matter. It allocates no memory.
///
/// # Errors
///
/// `WrongRule` if there is no such rule, it leaves another symbol, or it has another number of free variables;
/// `PassedRange` if a value of the cost exceeds 128 bits; never `GuardFails`.
pub fn cost_checked(p: &Program, now: &Config, step: &Step) -> Result<u128, StepError>
    requires valid { IsValid (program_of p.now) }
    requires places { length now.now.values.items ≡ arity_of (program_of p.now) now.now.at }
    ensures fault { MatchResult result
        (λ _. cost_fault (program_of p.now) (config_of now.now) (step_of step.now) ≡ None)
        (λ e. cost_fault (program_of p.now) (config_of now.now) (step_of step.now) ≡ Some (fault_of e)) }
    ensures value { IfOk result (λ n.
        n ≡ cost (program_of p.now) step.now.rule (now.now.values.items ++ step.now.free.items)) }
    ensures no_atom { IfErr result (λ e. (n : ℕ) → ¬ (fault_of e ≡ AtomFails n)) }
{
    match rule_position(p, step.rule) {
        Some(i) => cost_by(&p.rules[i], now, &step.free),
        None => Err(StepError::WrongRule),
    }
}

// The cost of a use of a rule.
fn cost_by(rule: &Rule, now: &Config, free: &[i128]) -> Result<u128, StepError>
    requires valid { IsValidCost (rule.now.left + rule.now.free) (option_map term_of rule.now.cost) }
    requires left { now.now.at ≡ rule.now.source → length now.now.values.items ≡ rule.now.left }
    ensures fault { MatchResult result
        (λ _. rule_cost_fault (rule_of rule.now) (config_of now.now) free.now ≡ None)
        (λ e. rule_cost_fault (rule_of rule.now) (config_of now.now) free.now ≡ Some (fault_of e)) }
    ensures value { IfOk result (λ n. n ≡ cost_at (rule_of rule.now).cost (now.now.values.items ++ free.now)) }
    ensures no_atom { IfErr result (λ e. (n : ℕ) → ¬ (fault_of e ≡ AtomFails n)) }
{
    if now.at != rule.source || free.len() != rule.free as usize {
        return Err(StepError::WrongRule);
    }
    match cost_in_parts(&rule.cost, &now.values, free) {
        Some(n) => Ok(n),
        None => Err(StepError::PassedRange),
    }
}

// The value of a cost, or `None` if a value in it exceeds 128 bits.
fn cost_in_parts(cost: &Option<Expr>, left: &[i128], free: &[i128]) -> Option<u128>
    requires { IsValidCost (length left.now + length free.now) (option_map term_of cost.now) }
    ensures fault { MatchOption result
        (written_fault (option_map term_of cost.now) (left.now ++ free.now) ≡ Some PastRange)
        (λ _. written_fault (option_map term_of cost.now) (left.now ++ free.now) ≡ None) }
    ensures value { MatchOption result ⊤
        (λ n. n ≡ cost_at (option_map term_of cost.now) (left.now ++ free.now)) }
{
    match cost {
        None => Some(1),
        Some(c) => Some(or_zero(value_in_parts(c, left, free)?)),
    }
}

// The integer, or 0 if it is negative.
fn or_zero(z: i128) -> u128
    ensures { result ≡ or_zero_of z }
{
    if z < 0 { 0 } else { z as u128 }
}

/// The cost of a use of a rule has no fault exactly if the rule exists, leaves the configuration's symbol, has that
/// many free variables, and a cost whose values stay within 128 bits. The function has no code: its contract is the
/// law.
pub fn costs_have_no_fault()
    ensures { CostsHaveNoFault }
{}
