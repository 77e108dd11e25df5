//! What is known of the steps of a program.

ghost use Rattle.std.specs.Prelude.{◌≡◌, [], map, option_map, IfOk};
ghost use Rattle.guard_prep.specs.Laws.{IsPreparable};
ghost use Rattle.its_model.specs.Valid.{IsValid};
ghost use Rattle.its_model.specs.Views.{program_of, rule_of};
ghost use Rattle.potential_nodes.specs.potentials.model.Programs.{rule_at};
ghost use Rattle.potential_nodes.specs.potentials.model.Paths.{source_in, target_in, target_of as symbol_behind};
ghost use Rattle.potential_nodes.specs.potentials.model.Paths.{comes_before as is_before};
ghost use Rattle.potential_nodes.specs.PlainPeaks.{left_in};
ghost use Rattle.potential_ground.specs.RowTerms.{variable_count};
ghost use Rattle.check_potentials.specs.Grounds.{IsPrepared, plain_ground, program, row_terms_of, list_terms};
ghost use Rattle.check_potentials.specs.Grounds.{rule_prepared, rule_prepared_of};

use crate::squares::square_rows;
use guard_prep::{RuleRows, rows};
use its_model::{Program, Rule};
use poly_terms::{Expr, Memory, Row};
use std::alloc::Global;

/// What is prepared of a rule: its rows and new values, and its rows of squares.
#[derive(Drop)]
pub struct PreparedRule {
    /// The rows of its guard, and its new values.
    pub rows: RuleRows,
    /// Rows of the new values of updates that are affine but for a square: each is at least 0.
    pub squares: Vec<Expr>,
}

/// A program, with what is prepared of each of its rules, in order.
#[derive(Clone, Copy)]
pub struct Ground<'a> {
    pub program: &'a Program,
    pub rules: &'a [PreparedRule],
}

/// The rows of a rule: those of its guard, and behind them rows of squares.
#[derive(Clone, Copy)]
pub struct RowList<'a> {
    pub prepared: &'a [Row],
    pub squares: &'a [Expr],
}

/// What is prepared of each rule of a program, in order.
///
/// # Errors
///
/// `Memory` where an allocation fails.
pub fn prepared_rows(alloc: Global, program: &Program) -> Result<Vec<PreparedRule>, Memory>
    requires { IsValid (program_of program.now) }
    ensures { IfOk result (λ rules. map rule_prepared_of rules.items ≡ map rule_prepared (program_of program.now).rules) }
{
    let mut rules = Vec::new(alloc);
    for rule in &program.rules {
        rules.push(prepared_rule(alloc, rule)?)?;
    }
    Ok(rules)
}

// What is prepared of a rule.
fn prepared_rule(alloc: Global, rule: &Rule) -> Result<PreparedRule, Memory>
    requires { IsPreparable (rule_of rule.now) }
    ensures { IfOk result (λ m. rule_prepared_of m ≡ rule_prepared (rule_of rule.now)) }
{
    let rows = rows(alloc, rule)?;
    let squares = square_rows(alloc, rule.left + rule.free, &rows.polys)?;
    Ok(PreparedRule { rows, squares })
}

/// The rule with a number, from 1 on, if there is one.
pub(crate) fn rule_numbered<'a>(ground: Ground<'a>, rule: u32) -> Option<&'a Rule>
    ensures { option_map (λ r. rule_of r.now) result ≡ rule_at (program ground.entry) rule }
{
    if rule == 0 {
        return None;
    }
    ground.program.rules.get(rule as usize - 1)
}

/// The rows of the rule with a number; if there is no such rule, none.
pub(crate) fn rows_of<'a>(ground: Ground<'a>, rule: u32) -> RowList<'a>
    requires { IsPrepared ground }
    ensures { list_terms result ≡ (plain_ground ground.entry).rows rule }
{
    if rule == 0 {
        return no_rows();
    }
    match ground.rules.get(rule as usize - 1) {
        Some(found) => RowList {
            prepared: &found.rows.rows,
            squares: &found.squares,
        },
        None => no_rows(),
    }
}

// No rows.
fn no_rows<'a>() -> RowList<'a>
    ensures { list_terms result ≡ [] }
{
    RowList {
        prepared: &[],
        squares: &[],
    }
}

/// The new values of the rule with a number; if there is no such rule, none.
pub(crate) fn new_values_of<'a>(ground: Ground<'a>, rule: u32) -> &'a [Row]
    requires { IsPrepared ground }
    ensures { row_terms_of result.now ≡ (plain_ground ground.entry).new_values rule }
{
    if rule == 0 {
        return &[];
    }
    match ground.rules.get(rule as usize - 1) {
        Some(found) => &found.rows.new_values,
        None => &[],
    }
}

/// The number of variables of the rule with a number, and 0 if there is no such rule.
pub(crate) fn variables_of(ground: Ground, rule: u32) -> u32
    requires { IsPrepared ground }
    ensures { result ≡ variable_count (rule_at (program ground.entry) rule) }
{
    match rule_numbered(ground, rule) {
        Some(found) => found.left.saturating_add(found.free),
        None => 0,
    }
}

/// The number of places of the source of the rule with a number, and 0 if there is no such rule.
pub(crate) fn left_of(ground: Ground, rule: u32) -> u32
    ensures { result ≡ left_in (rule_at (program ground.entry) rule) }
{
    match rule_numbered(ground, rule) {
        Some(found) => found.left,
        None => 0,
    }
}

/// The number of places of a symbol, and 0 where there is no such symbol.
pub(crate) fn places_of(ground: Ground, symbol: u32) -> u32
    ensures { result ≡ (plain_ground ground.entry).places symbol }
{
    match ground.program.symbols.get(symbol as usize) {
        Some(found) => found.arity,
        None => 0,
    }
}

/// The symbol that a rule comes from, if there is such a rule.
pub(crate) fn source_of(ground: Ground, rule: u32) -> Option<u32>
    ensures { result ≡ source_in (rule_at (program ground.entry) rule) }
{
    match rule_numbered(ground, rule) {
        Some(found) => Some(found.source),
        None => None,
    }
}

/// The symbol that a rule leads to, if there is such a rule.
pub(crate) fn target_of(ground: Ground, rule: u32) -> Option<u32>
    ensures { result ≡ target_in (rule_at (program ground.entry) rule) }
{
    match rule_numbered(ground, rule) {
        Some(found) => Some(found.target),
        None => None,
    }
}

// The symbol that a rule leads to, if there is such a rule; the virtual entry, 0, leads to the start symbol.
fn reached_by(ground: Ground, rule: u32) -> Option<u32>
    ensures { result ≡ symbol_behind (program ground.entry) rule }
{
    if rule == 0 {
        return Some(ground.program.start);
    }
    target_of(ground, rule)
}

/// Whether a rule, or the virtual entry, can come just before another rule.
pub(crate) fn comes_before(ground: Ground, before: u32, rule: u32) -> bool
    ensures { result ≡ is_before (program ground.entry) before rule }
{
    let Some(reached) = reached_by(ground, before) else {
        return false;
    };
    let Some(left) = source_of(ground, rule) else {
        return false;
    };
    reached == left
}
