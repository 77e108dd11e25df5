//! Prints the contents of a node apart from its premises.

ghost use Rattle.std.specs.Prelude.{◌≡◌, ◌++◌, map, codes, decimal, slice_get, OnOk};
ghost use Rattle.its_model.specs.Views.{program_of, symbol_of};
ghost use Rattle.cert_types.specs.Views.{side_bound_of, cost_by_of, form_of, local_of, member_of, rank_of, result_variable_of};
ghost use Rattle.cert_text.specs.Lists.{each_behind, joined, listed, numbers_text};
ghost use Rattle.cert_text.specs.Texts.{side_bound_text, cost_by_text, form_numbers, form_text, local_text, member_text};
ghost use Rattle.cert_text.specs.Texts.{name_in, rank_head, rank_rest, rank_text, result_variable_text};

use crate::numbers::{push_each_before, push_number, push_numbers, push_rules, push_signed};
use cert_types::{
    CostBy, CostNode, EmptyNode, Form, LocalBound, Member, RankNode, ResultVariable, SideBound,
    SpreadNode,
};
use its_model::{Program, Symbol};
use model::Memory;

/// Writes the name of a symbol.
pub(crate) fn push_name(text: &mut Vec<u8>, symbols: &[Symbol], symbol: u32) -> Result<(), Memory>
    ensures { OnOk result
        (text.new.items ≡ text.old.items ++ name_in (slice_get (map symbol_of symbols.now) symbol)) }
{
    match symbols.get(symbol as usize) {
        Some(symbol) => text.extend_from_slice(&symbol.name.bytes),
        None => Ok(()),
    }
}

/// Writes a word, and the number of a rule or a lemma.
pub(crate) fn push_named(text: &mut Vec<u8>, word: &[u8], number: u32) -> Result<(), Memory>
    ensures { OnOk result (text.new.items ≡ text.old.items ++ (word.now ++ decimal number)) }
{
    text.extend_from_slice(word)?;
    push_number(text, u64::from(number))
}

/// Writes the node of a rule whose rows no point meets.
pub(crate) fn push_empty(text: &mut Vec<u8>, node: &EmptyNode) -> Result<(), Memory>
    ensures { OnOk result (text.new.items ≡ text.old.items ++ (codes "empty "
        ++ (decimal node.now.rule ++ (codes " " ++ numbers_text node.now.multipliers.items)))) }
{
    push_named(text, b"empty ", node.rule)?;
    text.extend_from_slice(b" ")?;
    push_numbers(text, &node.multipliers)
}

// Writes a rule and a place.
fn push_result_variable(text: &mut Vec<u8>, result_variable: ResultVariable) -> Result<(), Memory>
    ensures { OnOk result (text.new.items ≡ text.old.items ++ result_variable_text (result_variable_of result_variable)) }
{
    push_number(text, u64::from(result_variable.rule))?;
    text.extend_from_slice(b".")?;
    push_number(text, u64::from(result_variable.place))
}

// Writes coefficients and a constant.
fn push_form_numbers(text: &mut Vec<u8>, coefs: &[i64], constant: i64) -> Result<(), Memory>
    ensures { OnOk result (text.new.items ≡ text.old.items
        ++ form_numbers (record { coefs = coefs.now; constant = constant })) }
{
    text.extend_from_slice(b"[")?;
    push_each_before(text, coefs)?;
    push_signed(text, constant)?;
    text.extend_from_slice(b"]")
}

// Writes one side of a local bound.
fn push_side_bound(text: &mut Vec<u8>, side_bound: &SideBound) -> Result<(), Memory>
    ensures { OnOk result (text.new.items ≡ text.old.items ++ side_bound_text (side_bound_of side_bound.now)) }
{
    match side_bound {
        SideBound::Poly => text.extend_from_slice(b"poly"),
        SideBound::Linear {
            den,
            coefs,
            constant,
            multipliers,
        } => {
            text.extend_from_slice(b"lin ")?;
            push_number(text, *den)?;
            text.extend_from_slice(b" ")?;
            push_form_numbers(text, coefs, *constant)?;
            text.extend_from_slice(b" ")?;
            push_numbers(text, multipliers)
        }
    }
}

// Writes both sides of a local bound.
fn push_local(text: &mut Vec<u8>, local: &LocalBound) -> Result<(), Memory>
    ensures { OnOk result (text.new.items ≡ text.old.items ++ local_text (local_of local.now)) }
{
    text.extend_from_slice(b"up ")?;
    push_side_bound(text, &local.up)?;
    text.extend_from_slice(b" low ")?;
    push_side_bound(text, &local.low)
}

// Writes a rule and a place with their local bound.
fn push_member(
    text: &mut Vec<u8>,
    result_variable: ResultVariable,
    local: &LocalBound,
) -> Result<(), Memory>
    ensures { OnOk result (text.new.items ≡ text.old.items
        ++ member_text (record { result_variable = result_variable_of result_variable; local = local_of local.now })) }
{
    push_result_variable(text, result_variable)?;
    text.extend_from_slice(b" ")?;
    push_local(text, local)
}

/// Writes the node of a place with its local bound.
pub(crate) fn push_spread(text: &mut Vec<u8>, node: &SpreadNode) -> Result<(), Memory>
    ensures { OnOk result (text.new.items ≡ text.old.items ++ (codes "spread "
        ++ member_text (record { result_variable = result_variable_of node.now.result_variable; local = local_of node.now.local }))) }
{
    text.extend_from_slice(b"spread ")?;
    push_member(text, node.result_variable, &node.local)
}

/// Writes the node of the places of a loop with their local bounds.
pub(crate) fn push_cycle(text: &mut Vec<u8>, members: &[Member]) -> Result<(), Memory>
    ensures { OnOk result (text.new.items ≡ text.old.items ++ (codes "cycle "
        ++ listed (map member_text (map member_of members.now)))) }
{
    text.extend_from_slice(b"cycle [")?;
    push_joined_members(text, members)?;
    text.extend_from_slice(b"]")
}

// Writes members, with a semicolon and a blank between them.
fn push_joined_members(text: &mut Vec<u8>, members: &[Member]) -> Result<(), Memory>
    ensures { OnOk result (text.new.items ≡ text.old.items
        ++ joined (codes "; ") (map member_text (map member_of members.now))) }
{
    let Some((first, others)) = members.split_first() else {
        return Ok(());
    };
    push_member(text, first.result_variable, &first.local)?;
    push_more_members(text, others)
}

// Writes members, with a semicolon and a blank before each.
fn push_more_members(text: &mut Vec<u8>, members: &[Member]) -> Result<(), Memory>
    ensures { OnOk result (text.new.items ≡ text.old.items
        ++ each_behind (codes "; ") (map member_text (map member_of members.now))) }
{
    for member in members {
        text.extend_from_slice(b"; ")?;
        push_member(text, member.result_variable, &member.local)?;
    }
    Ok(())
}

/// Writes the node on a rule with a cost: the rule, and how the cost is shown.
pub(crate) fn push_cost(text: &mut Vec<u8>, node: &CostNode) -> Result<(), Memory>
    ensures { OnOk result (text.new.items ≡ text.old.items ++ (codes "cost "
        ++ (decimal node.now.rule ++ (codes " " ++ cost_by_text (cost_by_of node.now.by))))) }
{
    push_named(text, b"cost ", node.rule)?;
    text.extend_from_slice(b" ")?;
    push_cost_by(text, &node.by)
}

// Writes how a cost is shown.
fn push_cost_by(text: &mut Vec<u8>, by: &CostBy) -> Result<(), Memory>
    ensures { OnOk result (text.new.items ≡ text.old.items ++ cost_by_text (cost_by_of by.now)) }
{
    match by {
        CostBy::Empty(multipliers) => {
            text.extend_from_slice(b"empty ")?;
            push_numbers(text, multipliers)
        }
        CostBy::Never => text.extend_from_slice(b"never"),
        CostBy::SideBound(side_bound) => push_side_bound(text, side_bound),
    }
}

/// Writes a ranking node without its premises.
pub(crate) fn push_rank(text: &mut Vec<u8>, p: &Program, node: &RankNode) -> Result<(), Memory>
    ensures { OnOk result (text.new.items ≡ text.old.items ++ rank_text (program_of p.now) (rank_of node.now)) }
{
    push_rank_head(text, node)?;
    push_rank_rest(text, p, node)
}

// Writes the rule, the set and the denominator of a ranking node.
fn push_rank_head(text: &mut Vec<u8>, node: &RankNode) -> Result<(), Memory>
    ensures { OnOk result (text.new.items ≡ text.old.items ++ rank_head (rank_of node.now)) }
{
    push_named(text, b"rank ", node.rule)?;
    text.extend_from_slice(b" set ")?;
    push_rules(text, &node.set)?;
    text.extend_from_slice(b" den ")?;
    push_number(text, node.den)
}

// Writes the forms and the multipliers of a ranking node.
fn push_rank_rest(text: &mut Vec<u8>, p: &Program, node: &RankNode) -> Result<(), Memory>
    ensures { OnOk result (text.new.items ≡ text.old.items ++ rank_rest (program_of p.now) (rank_of node.now)) }
{
    text.extend_from_slice(b" forms ")?;
    push_forms(text, p, &node.forms)?;
    text.extend_from_slice(b" moves ")?;
    push_moves(text, &node.moves)?;
    text.extend_from_slice(b" floor ")?;
    push_numbers(text, &node.floor)
}

// Writes forms in square brackets, with a semicolon and a blank between them.
fn push_forms(text: &mut Vec<u8>, p: &Program, forms: &[Form]) -> Result<(), Memory>
    ensures { OnOk result (text.new.items ≡ text.old.items
        ++ listed (map (form_text (program_of p.now)) (map form_of forms.now))) }
{
    text.extend_from_slice(b"[")?;
    push_joined_forms(text, p, forms)?;
    text.extend_from_slice(b"]")
}

// Writes forms, with a semicolon and a blank between them.
fn push_joined_forms(text: &mut Vec<u8>, p: &Program, forms: &[Form]) -> Result<(), Memory>
    ensures { OnOk result (text.new.items ≡ text.old.items
        ++ joined (codes "; ") (map (form_text (program_of p.now)) (map form_of forms.now))) }
{
    let Some((first, others)) = forms.split_first() else {
        return Ok(());
    };
    push_form(text, p, first)?;
    push_more_forms(text, p, others)
}

// Writes forms, with a semicolon and a blank before each.
fn push_more_forms(text: &mut Vec<u8>, p: &Program, forms: &[Form]) -> Result<(), Memory>
    ensures { OnOk result (text.new.items ≡ text.old.items
        ++ each_behind (codes "; ") (map (form_text (program_of p.now)) (map form_of forms.now))) }
{
    for form in forms {
        text.extend_from_slice(b"; ")?;
        push_form(text, p, form)?;
    }
    Ok(())
}

// Writes the part of a ranking function at a symbol.
fn push_form(text: &mut Vec<u8>, p: &Program, form: &Form) -> Result<(), Memory>
    ensures { OnOk result (text.new.items ≡ text.old.items ++ form_text (program_of p.now) (form_of form.now)) }
{
    push_name(text, &p.symbols, form.symbol)?;
    text.extend_from_slice(b" ")?;
    push_form_numbers(text, &form.coefs, form.constant)
}

// Writes lists of multipliers in square brackets, with a semicolon and a blank between them.
fn push_moves(text: &mut Vec<u8>, moves: &[Vec<u64>]) -> Result<(), Memory>
    ensures { OnOk result (text.new.items ≡ text.old.items
        ++ listed (map numbers_text (map (λ m. m.items) moves.now))) }
{
    text.extend_from_slice(b"[")?;
    push_joined_moves(text, moves)?;
    text.extend_from_slice(b"]")
}

// Writes lists of multipliers, with a semicolon and a blank between them.
fn push_joined_moves(text: &mut Vec<u8>, moves: &[Vec<u64>]) -> Result<(), Memory>
    ensures { OnOk result (text.new.items ≡ text.old.items
        ++ joined (codes "; ") (map numbers_text (map (λ m. m.items) moves.now))) }
{
    let Some((first, others)) = moves.split_first() else {
        return Ok(());
    };
    push_numbers(text, first)?;
    push_more_moves(text, others)
}

// Writes lists of multipliers, with a semicolon and a blank before each.
fn push_more_moves(text: &mut Vec<u8>, moves: &[Vec<u64>]) -> Result<(), Memory>
    ensures { OnOk result (text.new.items ≡ text.old.items
        ++ each_behind (codes "; ") (map numbers_text (map (λ m. m.items) moves.now))) }
{
    for multipliers in moves {
        text.extend_from_slice(b"; ")?;
        push_numbers(text, multipliers)?;
    }
    Ok(())
}
