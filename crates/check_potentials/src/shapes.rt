//! The shape of tables, payments and what they cite.

ghost use Rattle.std.specs.Prelude.{◌≡◌, map};
ghost use Rattle.potential_nodes.specs.Lookup.{ascends};
ghost use Rattle.potential_nodes.specs.Tables.{symbol_of, rule_of, function_shape, move_shape, table_shape};
ghost use Rattle.potential_nodes.specs.Falls.{payer, payment_shape, sum_shape, cites_sum_by};
ghost use Rattle.potential_nodes.specs.Peaks.{cited_shape, cites_peak_by};
ghost use Rattle.potential_types.specs.Views.{function_of, move_of, payment_of, table_of, fact_view};
ghost use Rattle.check_potentials.specs.Grounds.{IsPrepared, plain_ground};
ghost use Rattle.check_potentials.specs.Keys.{is_above as is_key_above};
ghost use Rattle.check_potentials.specs.Refusals.{all_hold};

use crate::functions::has_function;
use crate::ground::{Ground, places_of, source_of, target_of, variables_of};
use potential_types::{
    Move, Payment, PotentialTable, SignedFact, SymbolFunction, peak_bound, reads_below, sum_of_form,
};

// Whether a key is above the last one, if there is one.
fn is_above(last: Option<u32>, key: u32) -> bool
    ensures { result ≡ is_key_above last key }
{
    match last {
        Some(before) => before < key,
        None => true,
    }
}

// Whether the symbols of functions ascend.
fn symbols_ascend(functions: &[SymbolFunction]) -> bool
    ensures { result ≡ ascends (map symbol_of (map function_of functions.now)) }
{
    let mut last = None;
    for function in functions {
        let is_next = is_above(last, function.symbol);
        if !is_next {
            return false;
        }
        last = Some(function.symbol);
    }
    true
}

// Whether the rules of moves ascend.
fn rules_ascend(moves: &[Move]) -> bool
    ensures { result ≡ ascends (map rule_of (map move_of moves.now)) }
{
    let mut last = None;
    for step in moves {
        let is_next = is_above(last, step.rule);
        if !is_next {
            return false;
        }
        last = Some(step.rule);
    }
    true
}

/// Whether the rules of payments ascend.
pub(crate) fn payers_ascend(payments: &[Payment]) -> bool
    ensures { result ≡ ascends (map payer (map payment_of payments.now)) }
{
    let mut last = None;
    for payment in payments {
        let is_next = is_above(last, payment.rule);
        if !is_next {
            return false;
        }
        last = Some(payment.rule);
    }
    true
}

// Whether a function reads the places of its symbol alone.
fn has_function_shape(ground: Ground, function: &SymbolFunction) -> bool
    ensures { result ≡ (function_shape (plain_ground ground.entry) (function_of function.now)).holds }
{
    reads_below(places_of(ground, function.symbol), &function.form)
}

// Whether each function has its shape.
fn have_function_shapes(ground: Ground, functions: &[SymbolFunction]) -> bool
    ensures { result ≡ all_hold (map (function_shape (plain_ground ground.entry)) (map function_of functions.now)) }
{
    for function in functions {
        let is_right = has_function_shape(ground, function);
        if !is_right {
            return false;
        }
    }
    true
}

// Whether a move is of a rule that leads to a symbol with a function, and leaves one where it keeps the function, and
// whether its gain reads the rule's variables alone.
fn has_move_shape(ground: Ground, table: &PotentialTable, step: &Move) -> bool
    requires { IsPrepared ground }
    ensures { result ≡ (move_shape (plain_ground ground.entry) (table_of table.now) (move_of step.now)).holds }
{
    has_function(table, target_of(ground, step.rule))
        && ((!step.keeps || has_function(table, source_of(ground, step.rule)))
            && reads_below(variables_of(ground, step.rule), &step.gain))
}

// Whether each move has its shape.
fn have_move_shapes(ground: Ground, table: &PotentialTable, moves: &[Move]) -> bool
    requires { IsPrepared ground }
    ensures { result
        ≡ all_hold (map (move_shape (plain_ground ground.entry) (table_of table.now)) (map move_of moves.now)) }
{
    for step in moves {
        let is_right = has_move_shape(ground, table, step);
        if !is_right {
            return false;
        }
    }
    true
}

/// Whether a table has its shape: the denominator is at least 1, symbols and rules ascend, and its functions and
/// moves have theirs.
#[tactic(auto, using(crate::proofs::RefusalLaws::hold_append))]
pub(crate) fn has_table_shape(ground: Ground, table: &PotentialTable) -> bool
    requires { IsPrepared ground }
    ensures { result ≡ all_hold (table_shape (plain_ground ground.entry) (table_of table.now)) }
{
    table.den >= 1
        && symbols_ascend(&table.functions)
        && rules_ascend(&table.moves)
        && have_function_shapes(ground, &table.functions)
        && have_move_shapes(ground, table, &table.moves)
}

// Whether a payment is of a rule that leaves a symbol with a function, and its amount reads the rule's variables alone.
fn has_payment_shape(ground: Ground, table: &PotentialTable, payment: &Payment) -> bool
    requires { IsPrepared ground }
    ensures { result ≡ (payment_shape (plain_ground ground.entry) (table_of table.now) (payment_of payment.now)).holds }
{
    has_function(table, source_of(ground, payment.rule))
        && reads_below(variables_of(ground, payment.rule), &payment.amount)
}

/// Whether each payment has its shape.
pub(crate) fn have_payment_shapes(
    ground: Ground,
    table: &PotentialTable,
    payments: &[Payment],
) -> bool
    requires { IsPrepared ground }
    ensures { result ≡ all_hold
        (map (payment_shape (plain_ground ground.entry) (table_of table.now)) (map payment_of payments.now)) }
{
    for payment in payments {
        let is_right = has_payment_shape(ground, table, payment);
        if !is_right {
            return false;
        }
    }
    true
}

// Whether a fact that a move cites is of the sum of its gain.
fn cites_sum(facts: &[SignedFact], step: &Move) -> bool
    ensures { result ≡ cites_sum_by (map fact_view facts.now) (move_of step.now) (move_of step.now).cited }
{
    match step.cited {
        None => true,
        Some(number) => sum_of_form(facts, step.rule, &step.gain, number).is_some(),
    }
}

// Whether a fact that a move cites is of the peak of its gain.
fn cites_peak(facts: &[SignedFact], step: &Move) -> bool
    ensures { result ≡ cites_peak_by (map fact_view facts.now) (move_of step.now) (move_of step.now).cited }
{
    match step.cited {
        None => true,
        Some(number) => peak_bound(facts, step.rule, &step.gain, number).is_some(),
    }
}

/// Whether each move cites the sum of its gain, if it cites a fact.
pub(crate) fn cite_sums(facts: &[SignedFact], moves: &[Move]) -> bool
    ensures { result ≡ all_hold (map (sum_shape (map fact_view facts.now)) (map move_of moves.now)) }
{
    for step in moves {
        let is_right = cites_sum(facts, step);
        if !is_right {
            return false;
        }
    }
    true
}

// Whether a move that keeps the function cites a sum, and one that resets it a peak, if it cites a fact.
fn cites_its_gain(facts: &[SignedFact], step: &Move) -> bool
    ensures { result ≡ (cited_shape (map fact_view facts.now) (move_of step.now)).holds }
{
    if step.keeps {
        cites_sum(facts, step)
    } else {
        cites_peak(facts, step)
    }
}

/// Whether each move cites what bounds its gain, if it cites a fact.
pub(crate) fn cite_gains(facts: &[SignedFact], moves: &[Move]) -> bool
    ensures { result ≡ all_hold (map (cited_shape (map fact_view facts.now)) (map move_of moves.now)) }
{
    for step in moves {
        let is_right = cites_its_gain(facts, step);
        if !is_right {
            return false;
        }
    }
    true
}
