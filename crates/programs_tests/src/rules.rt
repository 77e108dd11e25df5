//! Calls on the program of a rule: its prepared rows, the program of its cost, its steps, and what they cost.

ghost use Rattle.std.specs.Prelude.{◌≡◌, length, IfOk, IfSome, IsTrue};
ghost use Rattle.its_model.specs.model.Costs.{HasCost};
ghost use Rattle.its_model.specs.model.Programs.{arity_of};
ghost use Rattle.its_model.specs.Valid.{IsValid};
ghost use Rattle.its_model.specs.Views.{program_of};

use crate::words::first_and_rest;
use guard_prep::rows;
use its_model::{Config, Program, Step, cost_checked, cost_program, step_checked};
use its_reader::{ReadError, read};
use model::Memory;
use std::alloc::{AllocError, Global};

/// The answer of a call on a rule. Before the rule of a step or a cost come a configuration and a step, each followed
/// by a semicolon: a symbol and the values of its places, and a rule and its free values.
pub(crate) fn of_rule(alloc: Global, call: &str, text: &str) -> Result<String, Memory> {
    let (used, rule) = text.rsplit_once(';').unwrap_or(("", text));
    match program(alloc, rule.trim())? {
        None => String::from_str(alloc, "not read"),
        Some(p) => match call {
            "rows" => rows_text(alloc, &p),
            "cost-program" => cost_text(alloc, &p),
            _ => used_text(alloc, call, &p, used),
        },
    }
}

// The program of a rule, from its source.
fn program(alloc: Global, rule: &str) -> Result<Option<Program>, Memory>
    ensures { IfOk result (λ read. IfSome read (λ p. IsValid (program_of p))) }
{
    let (source, _) = rule.split_once('(').unwrap_or(("", ""));
    let text = format!(in alloc; "(STARTTERM (FUNCTIONSYMBOLS {source}))(RULES {rule})")?;
    match read(alloc, text.as_bytes()) {
        Ok(p) => Ok(Some(p)),
        Err(ReadError::Memory) => Err(AllocError),
        Err(_) => Ok(None),
    }
}

// How many places a symbol has; where there is none, 0.
fn arity_at(p: &Program, symbol: u32) -> u32
    ensures { result ≡ arity_of (program_of p.now) symbol }
{
    match p.symbols.get(symbol as usize) {
        Some(symbol) => symbol.arity,
        None => 0,
    }
}

// The configuration that a step of a program leads to, or its cost.
fn used_text(alloc: Global, call: &str, p: &Program, used: &str) -> Result<String, Memory>
    requires { IsValid (program_of p.now) }
{
    let (from, by) = used.split_once(';').unwrap_or((used, ""));
    let (at, values) = first_and_rest(alloc, from)?;
    let (rule, free) = first_and_rest(alloc, by)?;
    let now = Config { at, values };
    let step = Step { rule, free };
    if now.values.len() != arity_at(p, at) as usize {
        return String::from_str(alloc, "another number of places");
    }
    if call == "step" {
        return taken(alloc, p, &now, &step);
    }
    format!(in alloc; "{:?}", cost_checked(p, &now, &step))
}

// Where a step leads, with room for 32 places.
fn taken(alloc: Global, p: &Program, now: &Config, step: &Step) -> Result<String, Memory>
    requires valid { IsValid (program_of p.now) }
    requires places { length now.now.values.items ≡ arity_of (program_of p.now) now.now.at }
{
    let mut next = Config {
        at: 9,
        values: Vec::with_capacity(alloc, 32)?,
    };
    match step_checked(p, now, step, &mut next) {
        Ok(()) => format!(in alloc; "to {} at {:?}", next.at, next.values),
        Err(error) => format!(in alloc; "{error:?}"),
    }
}

// Whether there is a first rule, and it has a cost.
fn has_cost(p: &Program) -> bool
    ensures { IsTrue result → HasCost (program_of p.now) 1 }
{
    if p.rules.is_empty() {
        return false;
    }
    match &p.rules[0].cost {
        Some(_) => true,
        None => false,
    }
}

// The program of the cost of the first rule.
fn cost_text(alloc: Global, p: &Program) -> Result<String, Memory>
    requires { IsValid (program_of p.now) }
{
    if !has_cost(p) {
        return String::from_str(alloc, "no cost");
    }
    let made = cost_program(alloc, p, 1)?;
    format!(in alloc; "{made:?}")
}

// The prepared rows of the first rule.
fn rows_text(alloc: Global, p: &Program) -> Result<String, Memory>
    requires { IsValid (program_of p.now) }
{
    if p.rules.is_empty() {
        return String::from_str(alloc, "no rule");
    }
    format!(in alloc; "{:?}", rows(alloc, &p.rules[0])?)
}
