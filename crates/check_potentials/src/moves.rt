//! Moves that are missing, and whether certificates show moves and floors.

ghost use Rattle.std.specs.Prelude.{◌≡◌, ◌-◌, ◌<◌, ◌^◌, suc, pos, length, map, option_map, IfOk, slice_index_or};
ghost use Rattle.poly_terms.specs.Views.{term_of, monomials_of};
ghost use Rattle.poly_terms.specs.model.Terms.{Literal, Multiplication};
ghost use Rattle.its_model.specs.Views.{rule_of};
ghost use Rattle.potential_nodes.specs.potentials.model.Programs as plain;
ghost use Rattle.potential_nodes.specs.PolynomialTerms.{form_term};
ghost use Rattle.potential_nodes.specs.Checks.{first_refused, MissingTime};
ghost use Rattle.potential_nodes.specs.Facts.{is_never as is_said_never};
ghost use Rattle.potential_nodes.specs.Tables.{has_move as is_moved, missing_checks};
ghost use Rattle.potential_nodes.specs.Tables.{missing_from, move_check, behind as behind_step};
ghost use Rattle.potential_nodes.specs.Tables.{kept_goal as kept, reset_goal as reset, move_goal as goal_of_move};
ghost use Rattle.potential_nodes.specs.Tables.{floor_goal as goal_of_floor, source_form as form_at_source};
ghost use Rattle.potential_types.specs.Views.{fact_view, move_of, payment_of, reason_of, table_of};
ghost use Rattle.check_potentials.specs.Amounts.{amount_of as polynomial_of};
ghost use Rattle.check_potentials.specs.Grounds.{IsPrepared, plain_ground, program};
ghost use Rattle.check_potentials.specs.Never.{IsKnown};
ghost use Rattle.never_rules.specs.Never.{TellNever};

use crate::certificates::shows;
use crate::expressions::{form_after_expr, form_expr};
use crate::functions::{amount_of, form_at, has_function, has_own_move};
use crate::ground::{Ground, new_values_of, rows_of, source_of, target_of};
use crate::known::{Known, is_never};
use its_model::Rule;
use poly_terms::{Expr, Memory, Monomial};
use potential_types::{Move, Payment, PotentialTable, Reason};
use std::alloc::Global;

// Whether a rule that leads to this symbol has a move, if the symbol has a function, or never occurs.
fn has_move(known: Known, table: &PotentialTable, rule: u32, target: u32) -> bool
    requires tell { TellNever (map fact_view known.facts.now) known.never.now }
    requires flagged { rule < length known.never.now }
    ensures { (r : plain.Rule) → r.target ≡ target → result
        ≡ is_moved (table_of table.now) (is_said_never (map fact_view known.entry.facts.now)) rule r }
{
    !has_function(table, Some(target))
        || (has_own_move(&table.moves, rule) || is_never(known, rule))
}

/// The first rule that leads to a symbol with a function, has no move and may occur.
pub(crate) fn missing_move(ground: Ground, known: Known, table: &PotentialTable) -> Option<Reason>
    requires prepared { IsPrepared ground }
    requires known { IsKnown ground known }
    ensures { option_map reason_of result
        ≡ first_refused (missing_checks (plain_ground ground.entry) (table_of table.now)
        (is_said_never (map fact_view known.entry.facts.now))) }
{
    missing_among(known, table, &ground.program.rules)
}

// The first of the rules of a program that leads to a symbol with a function, has no move and may occur.
fn missing_among(known: Known, table: &PotentialTable, rules: &[Rule]) -> Option<Reason>
    requires few { length rules.now < 2 ^ 32 - 1 }
    requires tell { TellNever (map fact_view known.facts.now) known.never.now }
    requires all { length rules.now < length known.never.now }
    ensures { option_map reason_of result ≡ first_refused (missing_from (table_of table.now)
        (is_said_never (map fact_view known.entry.facts.now)) 1 (map rule_of rules.now)) }
{
    for i in 0..rules.len() {
        let number = i as u32 + 1;
        let is_there = has_move(known, table, number, rules[i].target);
        if !is_there {
            return Some(Reason::MissingTime(number));
        }
    }
    None
}

/// The function of the source of a rule.
pub(crate) fn source_form<'t>(
    ground: Ground,
    table: &'t PotentialTable,
    rule: u32,
) -> &'t [Monomial]
    ensures { monomials_of result.now ≡ form_at_source (plain_ground ground.entry) (table_of table.now) rule }
{
    form_at(table, source_of(ground, rule))
}

// The function after a step by a rule, over its unknowns.
fn behind(alloc: Global, ground: Ground, table: &PotentialTable, rule: u32) -> Result<Expr, Memory>
    requires { IsPrepared ground }
    ensures { IfOk result (λ e. term_of e ≡ behind_step (plain_ground ground.entry) (table_of table.now) rule) }
{
    let target = form_at(table, target_of(ground, rule));
    form_after_expr(alloc, new_values_of(ground, rule), target)
}

// A denominator times a polynomial.
fn times_den(alloc: Global, den: u64, form: &[Monomial]) -> Result<Expr, Memory>
    ensures { IfOk result
        (λ e. term_of e ≡ Multiplication (Literal (pos den)) (form_term (monomials_of form.now))) }
{
    let form = form_expr(alloc, form)?;
    Expr::product(alloc, Expr::Num(den as i128), form)
}

// The function before a step and the gain, less the function after it and what is paid, times the denominator.
fn kept_goal(
    alloc: Global,
    ground: Ground,
    table: &PotentialTable,
    step: &Move,
    amount: &[Monomial],
) -> Result<Expr, Memory>
    requires { IsPrepared ground }
    ensures { IfOk result (λ e. term_of e
        ≡ kept (plain_ground ground.entry) (table_of table.now) (move_of step.now) (monomials_of amount.now)) }
{
    let before = form_expr(alloc, source_form(ground, table, step.rule))?;
    let gain = form_expr(alloc, &step.gain.terms)?;
    let upper = Expr::sum(alloc, before, gain)?;
    let after = behind(alloc, ground, table, step.rule)?;
    let paid = times_den(alloc, table.den, amount)?;
    let lower = Expr::sum(alloc, after, paid)?;
    Expr::difference(alloc, upper, lower)
}

// The gain, less the function after a step that resets it.
fn reset_goal(
    alloc: Global,
    ground: Ground,
    table: &PotentialTable,
    step: &Move,
) -> Result<Expr, Memory>
    requires { IsPrepared ground }
    ensures { IfOk result (λ e. term_of e
        ≡ reset (plain_ground ground.entry) (table_of table.now) (move_of step.now)) }
{
    let gain = form_expr(alloc, &step.gain.terms)?;
    let after = behind(alloc, ground, table, step.rule)?;
    Expr::difference(alloc, gain, after)
}

/// Whether the certificate of a move shows it, if its rule is paid this amount.
///
/// # Errors
///
/// `Memory` where an allocation fails.
pub(crate) fn is_move_shown(
    alloc: Global,
    ground: Ground,
    table: &PotentialTable,
    step: &Move,
    amount: &[Monomial],
) -> Result<bool, Memory>
    requires { IsPrepared ground }
    ensures { IfOk result (λ r. r ≡ (move_check (plain_ground ground.entry) (table_of table.now)
        (λ t. monomials_of amount.now) (move_of step.now)).holds) }
{
    if step.keeps {
        let goal = kept_goal(alloc, ground, table, step, amount)?;
        return shows(alloc, rows_of(ground, step.rule), &step.certificate, goal);
    }
    let goal = reset_goal(alloc, ground, table, step)?;
    shows(alloc, rows_of(ground, step.rule), &step.certificate, goal)
}

/// The first move that its certificate doesn't show.
///
/// # Errors
///
/// `Memory` where an allocation fails.
pub(crate) fn unshown_move(
    alloc: Global,
    ground: Ground,
    table: &PotentialTable,
    moves: &[Move],
    payments: &[Payment],
) -> Result<Option<Reason>, Memory>
    requires { IsPrepared ground }
    ensures { IfOk result (λ o. option_map reason_of o ≡ first_refused (map (move_check (plain_ground ground.entry)
        (table_of table.now) (polynomial_of (map payment_of payments.now))) (map move_of moves.now))) }
{
    for step in moves {
        let amount = amount_of(payments, step.rule);
        let is_shown = is_move_shown(alloc, ground, table, step, amount)?;
        if !is_shown {
            return Ok(Some(Reason::BadMove(step.rule)));
        }
    }
    Ok(None)
}

/// The function before a step by a rule, less a polynomial times the denominator.
///
/// # Errors
///
/// `Memory` where an allocation fails.
pub(crate) fn floor_goal(
    alloc: Global,
    ground: Ground,
    table: &PotentialTable,
    rule: u32,
    form: &[Monomial],
) -> Result<Expr, Memory>
    ensures { IfOk result (λ e. term_of e
        ≡ goal_of_floor (plain_ground ground.entry) (table_of table.now) rule (monomials_of form.now)) }
{
    let before = form_expr(alloc, source_form(ground, table, rule))?;
    let lower = times_den(alloc, table.den, form)?;
    Expr::difference(alloc, before, lower)
}
