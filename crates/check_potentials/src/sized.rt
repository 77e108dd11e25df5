//! Polynomials of a rule by the sizes of the places that they read.

ghost use Rattle.std.specs.Prelude.{◌≡◌, ◌++◌, [], ◌∷◌, if◌then◌else◌, suc, length, map, option_map, IfOk, OnOk};
ghost use Rattle.poly_terms.specs.Views.{monomial_of, monomials_of};
ghost use Rattle.signed_bounds.specs.Views.{signed_of, signeds_of, parts_of};
ghost use Rattle.potential_nodes.specs.potentials.model.Paths.{pre};
ghost use Rattle.potential_nodes.specs.potentials.model.Spending.{or_zero};
ghost use Rattle.potential_nodes.specs.Checks.{first_refused};
ghost use Rattle.potential_nodes.specs.PlainPeaks.{sized_checks, size_shape};
ghost use Rattle.potential_nodes.specs.PlainPeaks.{size_by as bound_by, scaled_size as size_scaled};
ghost use Rattle.potential_nodes.specs.PlainPeaks.{monomial_size as size_of_monomial};
ghost use Rattle.potential_nodes.specs.PlainPeaks.{polynomial_size as size_of_polynomial};
ghost use Rattle.potential_nodes.specs.PlainPeaks.{form_size as size_of_form};
ghost use Rattle.potential_nodes.specs.Lookup.{is_there};
ghost use Rattle.potential_types.specs.Views.{fact_view, sized_of, reason_of};
ghost use Rattle.check_potentials.specs.Grounds.{IsPrepared, plain_ground, program};
ghost use Rattle.check_potentials.specs.Refusals.{all_hold};
ghost use Rattle.check_potentials.specs.Stages.{is_form_within, size_bounded};

use crate::gains::sum_of_parts;
use crate::ground::{Ground, comes_before, left_of};
use poly_terms::{Memory, Monomial};
use potential_types::{Reason, SignedFact, SizedNode, copied_bound, reads_below, size_bound};
use signed_bounds::Signed;
use signed_within::is_within;
use std::alloc::Global;

/// The first reason why a polynomial by sizes, with a stated bound, isn't accepted given these facts; `None`
/// if it is accepted.
///
/// # Errors
///
/// `Memory` where an allocation fails.
pub(crate) fn sized_refusal(
    alloc: Global,
    ground: Ground,
    facts: &[SignedFact],
    node: &SizedNode,
    bound: &Signed,
) -> Result<Option<Reason>, Memory>
    requires { IsPrepared ground }
    ensures { IfOk result (λ o. option_map reason_of o ≡ first_refused
        (sized_checks (plain_ground ground.entry) (map fact_view facts.now) (sized_of node.now) (signed_of bound.now))) }
{
    let is_right = reads_below(left_of(ground, node.rule), &node.form);
    if !is_right {
        return Ok(Some(Reason::BadShape));
    }
    let befores = predecessors(alloc, ground, node.rule)?;
    let are_sized = have_sizes(alloc, facts, node, &befores)?;
    if !are_sized {
        return Ok(Some(Reason::BadShape));
    }
    let are_high = are_sizes_within(alloc, facts, node, &befores, bound)?;
    if !are_high {
        return Ok(Some(Reason::LowBound));
    }
    Ok(None)
}

// How many rules there are, with the virtual entry.
#[tactic(auto, using(crate::proofs::GroundLaws::rules_few))]
fn entry_and_rules(ground: Ground) -> u32
    requires { IsPrepared ground }
    ensures { result ≡ suc (length ground.entry.program.now.rules.items) }
{
    ground.program.rules.len() as u32 + 1
}

// The rules that can come just before a rule, the virtual entry among them, in order.
fn predecessors(alloc: Global, ground: Ground, rule: u32) -> Result<Vec<u32>, Memory>
    requires { IsPrepared ground }
    ensures { IfOk result (λ befores. befores.items ≡ pre (program ground.entry) rule) }
{
    let count = entry_and_rules(ground);
    let mut befores = Vec::new(alloc);
    for before in 0..count {
        push_if(&mut befores, before, comes_before(ground, before, rule))?;
    }
    Ok(befores)
}

// Appends a number if a test says yes.
fn push_if(numbers: &mut Vec<u32>, number: u32, test: bool) -> Result<(), Memory>
    ensures { OnOk result (numbers.new.items ≡ numbers.old.items ++ (if test then number ∷ [] else [])) }
{
    if test {
        numbers.push(number)?;
        return Ok(());
    }
    Ok(())
}

// Whether a size is stated for each place after each of these rules.
fn have_sizes(
    alloc: Global,
    facts: &[SignedFact],
    node: &SizedNode,
    befores: &[u32],
) -> Result<bool, Memory>
    ensures { IfOk result (λ r. r
        ≡ all_hold (map (size_shape (map fact_view facts.now) (sized_of node.now)) befores.now)) }
{
    for before in befores {
        let is_sized = has_size(alloc, facts, node, *before)?;
        if !is_sized {
            return Ok(false);
        }
    }
    Ok(true)
}

// Whether a size is stated for each place after a rule.
fn has_size(
    alloc: Global,
    facts: &[SignedFact],
    node: &SizedNode,
    before: u32,
) -> Result<bool, Memory>
    ensures { IfOk result (λ r. r ≡ is_there (size_of_form (map fact_view facts.now) (sized_of node.now) before)) }
{
    let size = form_size(alloc, facts, &node.cited, before, &node.form.terms)?;
    Ok(size.is_some())
}

// Whether the bound is high enough after each of these rules.
fn are_sizes_within(
    alloc: Global,
    facts: &[SignedFact],
    node: &SizedNode,
    befores: &[u32],
    bound: &Signed,
) -> Result<bool, Memory>
    ensures { IfOk result (λ r. r ≡ all_hold (map
        (size_bounded (map fact_view facts.now) (sized_of node.now) (signed_of bound.now)) befores.now)) }
{
    for before in befores {
        let is_high = is_size_within(alloc, facts, node, *before, bound)?;
        if !is_high {
            return Ok(false);
        }
    }
    Ok(true)
}

// Whether the bound is high enough after a rule.
fn is_size_within(
    alloc: Global,
    facts: &[SignedFact],
    node: &SizedNode,
    before: u32,
    bound: &Signed,
) -> Result<bool, Memory>
    ensures { IfOk result (λ r. r
        ≡ is_form_within (size_of_form (map fact_view facts.now) (sized_of node.now) before) (signed_of bound.now)) }
{
    let found = form_size(alloc, facts, &node.cited, before, &node.form.terms)?;
    match found {
        Some(parts) => {
            let composed = sum_of_parts(parts);
            is_within(alloc, 1, &composed, bound)
        }
        None => Ok(false),
    }
}

// The bounds of the polynomial's monomials after a rule, if each place that it reads has a size.
fn form_size(
    alloc: Global,
    facts: &[SignedFact],
    cited: &[u32],
    before: u32,
    monomials: &[Monomial],
) -> Result<Option<Vec<Signed>>, Memory>
    ensures { IfOk result (λ o. option_map (λ parts. parts_of (signeds_of parts.items)) o ≡ size_of_polynomial
        (λ i. bound_by (map fact_view facts.now) cited.now before (suc i)) (monomials_of monomials.now)) }
{
    let mut parts = Vec::new(alloc);
    for monomial in monomials {
        let found = monomial_size(alloc, facts, cited, before, monomial)?;
        let Some(size) = found else {
            return Ok(None);
        };
        parts.push(size)?;
    }
    Ok(Some(parts))
}

// What a monomial comes to at most after a rule: the positive part of a constant, or the absolute coefficient times the
// size of its place; one with more factors has no bound here.
fn monomial_size(
    alloc: Global,
    facts: &[SignedFact],
    cited: &[u32],
    before: u32,
    monomial: &Monomial,
) -> Result<Option<Signed>, Memory>
    ensures { IfOk result (λ o. option_map signed_of o ≡ size_of_monomial
        (λ i. bound_by (map fact_view facts.now) cited.now before (suc i)) (monomial_of monomial.now)
        (monomial_of monomial.now).vars) }
{
    match monomial.vars.split_first() {
        None => Ok(Some(Signed::Const(positive_part(monomial.coef)))),
        Some((variable, [])) => {
            let size = size_by(facts, cited, before, u64::from(*variable) + 1);
            scaled_size(alloc, monomial.coef.unsigned_abs(), size)
        }
        Some((_, [_, ..])) => Ok(None),
    }
}

// The positive part of an integer.
fn positive_part(z: i128) -> u128
    ensures { result ≡ or_zero z }
{
    if z < 0 { 0 } else { z as u128 }
}

// A number times a size.
fn scaled_size(alloc: Global, times: u128, size: Option<&Signed>) -> Result<Option<Signed>, Memory>
    ensures { IfOk result (λ o. option_map signed_of o
        ≡ size_scaled times (option_map (λ b. signed_of b.now) size.entry)) }
{
    match size {
        Some(bound) => {
            let mut factors = Vec::new(alloc);
            factors.push(Signed::Const(times))?;
            factors.push(copied_bound(alloc, bound)?)?;
            Ok(Some(Signed::Prod(factors)))
        }
        None => Ok(None),
    }
}

// The first size of a place after a rule among cited facts.
fn size_by<'f>(
    facts: &'f [SignedFact],
    cited: &[u32],
    before: u32,
    place: u64,
) -> Option<&'f Signed>
    ensures { option_map (λ b. signed_of b.now) result
        ≡ bound_by (map fact_view facts.now) cited.now before place }
{
    for number in cited {
        if let Some(bound) = size_bound(facts, before, place, *number) {
            return Some(bound);
        }
    }
    None
}
