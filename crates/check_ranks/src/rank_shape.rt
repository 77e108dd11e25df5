//! Checks the shape of a node with a ranking function.

ghost use Rattle.std.specs.Prelude.{◌≡◌, ◌↔◌, map, IfOk, IsTrue};
ghost use Rattle.std.specs.List.{All, AllByRecursion};
ghost use Rattle.its_model.specs.Views.{program_of};
ghost use Rattle.model.specs.Entries.{is_in};
ghost use Rattle.cert_context.specs.CheckContexts.{IsCheckContext, program, setting};
ghost use Rattle.check_ranks.specs.RankShapes.{HasMoves, HasRankNumbers, IsRankSet, symbol_in};
ghost use Rattle.cert_types.specs.Views.{form_of, rank_of};
ghost use Rattle.cert_types.specs.cert_rules.AcceptsPlain.{IsRule};
ghost use Rattle.cert_types.specs.cert_rules.AcceptsRank.{HasFormShape, HasRankShape};
ghost use Rattle.cert_types.specs.cert_rules.Numbers.{IsAscending};

use crate::symbols::symbols_of_set;
use cert_context::{CheckContext, are_multipliers, are_within, is_within};
use cert_types::{Form, RankNode, has_number};
use farkas_cert::LIMIT;
use gap_checks::{are_rules, arity_at, ascends};
use its_model::Program;
use model::Memory;
use std::alloc::Global;

// Whether the set ascends, has numbers of rules alone and holds the rule.
fn is_rank_set(p: &Program, node: &RankNode) -> bool
    ensures { IsTrue result ↔ IsRankSet (program_of p.now) (rank_of node.now) }
{
    ascends(&node.set) && are_rules(p, &node.set) && has_number(&node.set, node.rule)
}

// Whether a form has a coefficient for each place of its symbol, and numbers within the limit.
fn has_form_shape(p: &Program, form: &Form) -> bool
    ensures { IsTrue result ↔ HasFormShape (program_of p.now) (form_of form.now) }
{
    if form.coefs.len() != arity_at(p, form.symbol) as usize {
        return false;
    }
    are_within(&form.coefs) && is_within(form.constant)
}

// Whether each form has the right shape.
fn have_form_shapes(p: &Program, forms: &[Form]) -> bool
    ensures { IsTrue result ↔ All (HasFormShape (program_of p.now)) (map form_of forms.now) }
{
    for form in forms {
        let fits = has_form_shape(p, form);
        if !fits {
            return false;
        }
    }
    true
}

// Whether the symbols of the forms are these, in order.
fn are_of(forms: &[Form], symbols: &[u32]) -> bool
    ensures { IsTrue result ↔ (map symbol_in forms.now ≡ symbols.now) }
{
    if forms.len() != symbols.len() {
        return false;
    }
    for i in 0..forms.len() {
        if forms[i].symbol != symbols[i] {
            return false;
        }
    }
    true
}

// Whether there are multipliers for each rule of a set, one for each of its rows.
fn are_moves(context: &CheckContext, set: &[u32], moves: &[Vec<u64>]) -> bool
    requires context { IsCheckContext context.now }
    requires ascending { IsAscending set.now }
    requires rules { AllByRecursion (IsRule (program context.now)) set.now }
    ensures { IsTrue result ↔ HasMoves (setting context.now) set.now (map (λ m. m.items) moves.now) }
{
    if moves.len() != set.len() {
        return false;
    }
    for i in 0..set.len() {
        let fits = are_multipliers(context, set[i], &moves[i]);
        if !fits {
            return false;
        }
    }
    true
}

// Whether the multipliers and the denominator of a node are right, if its set is.
fn has_numbers(context: &CheckContext, node: &RankNode) -> bool
    requires context { IsCheckContext context.now }
    requires set { IsRankSet (program context.now) (rank_of node.now) }
    ensures { IsTrue result ↔ HasRankNumbers (setting context.now) (rank_of node.now) }
{
    if node.den == 0 || node.den > LIMIT {
        return false;
    }
    are_moves(context, &node.set, &node.moves) && are_multipliers(context, node.rule, &node.floor)
}

/// Whether the shape of a node with a ranking function is right.
///
/// # Errors
///
/// `Memory` where an allocation fails.
pub(crate) fn has_rank_shape(
    alloc: Global,
    context: &CheckContext,
    node: &RankNode,
) -> Result<bool, Memory>
    requires { IsCheckContext context.now }
    ensures { IfOk result (λ is_right. IsTrue is_right ↔ HasRankShape (setting context.now) (rank_of node.now)) }
{
    if !is_rank_set(context.program, node) {
        return Ok(false);
    }
    if !has_numbers(context, node) {
        return Ok(false);
    }
    let symbols = symbols_of_set(alloc, context.program, &node.set)?;
    if !are_of(&node.forms, &symbols) {
        return Ok(false);
    }
    Ok(have_form_shapes(context.program, &node.forms))
}
