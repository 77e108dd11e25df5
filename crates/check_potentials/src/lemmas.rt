//! Lemmas one after the other: the first that isn't accepted, and what accepted ones state.

ghost use Rattle.std.specs.Prelude.{◌≡◌, ◌<◌, length, map, option_map, IfOk, MatchResult};
ghost use Rattle.signed_bounds.specs.Views.{signed_of};
ghost use Rattle.poly_terms.specs.Views.{poly_of};
ghost use Rattle.potential_nodes.specs.Facts.{PeakFact, AllSignedHold};
ghost use Rattle.potential_nodes.specs.Checks.{first_refused};
ghost use Rattle.potential_nodes.specs.Falls.{payment_charge};
ghost use Rattle.potential_nodes.specs.Combinations.{combination_checks, combination_fact, with_other_bound};
ghost use Rattle.potential_nodes.specs.PhaseNodes.{unit_payment};
ghost use Rattle.potential_nodes.specs.Acceptance.{node_checks, refusal as refusal_of_lemma, fact_of as fact_of_lemma};
ghost use Rattle.potential_types.specs.Views.{charge_of, combination_of, counted_of, fact_view, lemma_of, node_of};
ghost use Rattle.potential_types.specs.Views.{payment_of, reason_of};
ghost use Rattle.check_potentials.specs.Grounds.{IsPrepared, plain_ground, program};
ghost use Rattle.check_potentials.specs.Lists.{Accepts, Refuses};
ghost use Rattle.check_potentials.specs.Never.{IsKnown};
ghost use Rattle.never_rules.specs.Never.{TellNever};
ghost use Rattle.check_potentials.specs.declared.lemmas.LemmaFault.TheVariants as faults;

use crate::combining::{combination_refusal, composed};
use crate::falls::fall_refusal;
use crate::ground::Ground;
use crate::known::{Known, flags_of};
use crate::peaks::peak_refusal;
use crate::phasing::phases_refusal;
use crate::rows::row_refusal;
use crate::sized::sized_refusal;
use never_rules::mark_never;
use poly_terms::{Memory, Poly};
use potential_types::{
    Charge, Combination, CountedRule, Payment, Reason, SignedFact, SignedLemma, SignedNode,
    copied_bound, copied_charges, copied_poly, is_within_limits, one_poly,
};
use signed_bounds::Signed;
use std::alloc::{AllocError, AllocFailed, Global};

// The first reason why a lemma isn't accepted given these facts; `None` if it is accepted.
fn lemma_refusal(
    alloc: Global,
    ground: Ground,
    known: Known,
    lemma: &SignedLemma,
) -> Result<Option<Reason>, Memory>
    requires prepared { IsPrepared ground }
    requires known { IsKnown ground known }
    ensures { IfOk result (λ o. option_map reason_of o
        ≡ refusal_of_lemma (plain_ground ground.entry) (map fact_view known.entry.facts.now) (lemma_of lemma.now)) }
{
    let is_small = is_within_limits(lemma);
    if !is_small {
        return Ok(Some(Reason::BadShape));
    }
    let refused = node_refusal(alloc, ground, known, lemma)?;
    Ok(refused)
}

// The first reason why a lemma isn't accepted, given these facts and their flags; `None` if it is accepted.
fn refusal_given(
    alloc: Global,
    ground: Ground,
    facts: &[SignedFact],
    never: &[bool],
    lemma: &SignedLemma,
) -> Result<Option<Reason>, Memory>
    requires prepared { IsPrepared ground }
    requires tell { TellNever (map fact_view facts.now) never.now }
    requires all { length ground.program.now.rules.items < length never.now }
    ensures { IfOk result (λ o. option_map reason_of o
        ≡ refusal_of_lemma (plain_ground ground.entry) (map fact_view facts.now) (lemma_of lemma.now)) }
{
    lemma_refusal(alloc, ground, Known { facts, never }, lemma)
}

// The first reason why the node of a lemma isn't accepted.
fn node_refusal(
    alloc: Global,
    ground: Ground,
    known: Known,
    lemma: &SignedLemma,
) -> Result<Option<Reason>, Memory>
    requires prepared { IsPrepared ground }
    requires known { IsKnown ground known }
    ensures { IfOk result (λ o. option_map reason_of o ≡ first_refused (node_checks (plain_ground ground.entry)
        (map fact_view known.entry.facts.now) (node_of lemma.now.node) (signed_of lemma.now.bound))) }
{
    match &lemma.node {
        SignedNode::Fall(node) => fall_refusal(alloc, ground, known, node, &lemma.bound),
        SignedNode::Peak(node) => peak_refusal(alloc, ground, known, node, &lemma.bound),
        SignedNode::Row(node) => row_refusal(alloc, ground, node, &lemma.bound),
        SignedNode::Combined(node) => {
            combined_refusal(alloc, ground, known.facts, node, &lemma.bound)
        }
        SignedNode::Sized(node) => sized_refusal(alloc, ground, known.facts, node, &lemma.bound),
        SignedNode::InPhases(node) => phases_refusal(alloc, ground, known, node, &lemma.bound),
    }
}

// The first reason why a composed fact isn't accepted; what is known of the steps doesn't count.
fn combined_refusal(
    alloc: Global,
    ground: Ground,
    facts: &[SignedFact],
    node: &Combination,
    bound: &Signed,
) -> Result<Option<Reason>, Memory>
    ensures { IfOk result (λ o. option_map reason_of o ≡ first_refused (combination_checks (plain_ground ground.entry)
        (map fact_view facts.now) (combination_of node.now) (signed_of bound.now))) }
{
    let refused = combination_refusal(alloc, facts, node, bound)?;
    Ok(refused)
}

// The fact that a lemma states, given these facts.
fn fact_of(alloc: Global, facts: &[SignedFact], lemma: &SignedLemma) -> Result<SignedFact, Memory>
    ensures { IfOk result (λ f. fact_view f ≡ fact_of_lemma (map fact_view facts.now) (lemma_of lemma.now)) }
{
    let bound = copied_bound(alloc, &lemma.bound)?;
    match &lemma.node {
        SignedNode::Fall(node) => Ok(SignedFact::Sum(paid_charges(alloc, &node.payments)?, bound)),
        SignedNode::Peak(node) => peak_fact(alloc, node.rule, &node.form, bound),
        SignedNode::Row(node) => peak_fact(alloc, node.rule, &node.form, bound),
        SignedNode::Combined(node) => combined_fact(alloc, facts, node, bound),
        SignedNode::Sized(node) => peak_fact(alloc, node.rule, &node.form, bound),
        SignedNode::InPhases(node) => {
            Ok(SignedFact::Sum(once_charges(alloc, &node.counted)?, bound))
        }
    }
}

// The peak of a polynomial at the steps of a rule.
fn peak_fact(alloc: Global, rule: u32, form: &Poly, bound: Signed) -> Result<SignedFact, Memory>
    ensures { IfOk result (λ f. fact_view f ≡ PeakFact rule (poly_of form.now) (signed_of bound)) }
{
    let form = copied_poly(alloc, form)?;
    Ok(SignedFact::Peak(rule, form, bound))
}

// The charges that payments pay for.
fn paid_charges(alloc: Global, payments: &[Payment]) -> Result<Vec<Charge>, Memory>
    ensures { IfOk result
        (λ charges. map charge_of charges.items ≡ map payment_charge (map payment_of payments.now)) }
{
    let mut charges = Vec::new(alloc);
    for payment in payments {
        charges.push(Charge {
            rule: payment.rule,
            form: copied_poly(alloc, &payment.amount)?,
        })?;
    }
    Ok(charges)
}

// A charge of 1 for each step by each counted rule.
fn once_charges(alloc: Global, counted: &[CountedRule]) -> Result<Vec<Charge>, Memory>
    ensures { IfOk result (λ charges. map charge_of charges.items
        ≡ map payment_charge (map unit_payment (map counted_of counted.now))) }
{
    let mut charges = Vec::new(alloc);
    for rule in counted {
        charges.push(Charge {
            rule: rule.rule,
            form: one_poly(alloc)?,
        })?;
    }
    Ok(charges)
}

// A composed fact with the stated bound; if nothing is composed, a bound on no charges.
fn combined_fact(
    alloc: Global,
    facts: &[SignedFact],
    node: &Combination,
    bound: Signed,
) -> Result<SignedFact, Memory>
    ensures { IfOk result (λ f. fact_view f
        ≡ combination_fact (map fact_view facts.now) (combination_of node.now) (signed_of bound)) }
{
    match composed(alloc, facts, node)? {
        None => Ok(SignedFact::Sum(Vec::new(alloc), bound)),
        Some(fact) => Ok(with_bound(fact, bound)),
    }
}

// A fact with another bound.
fn with_bound(fact: SignedFact, bound: Signed) -> SignedFact
    ensures { fact_view result ≡ with_other_bound (fact_view fact) (signed_of bound) }
{
    match fact {
        SignedFact::Sum(charges, _) => SignedFact::Sum(charges, bound),
        SignedFact::Peak(rule, form, _) => SignedFact::Peak(rule, form, bound),
        SignedFact::Size(rule, place, _) => SignedFact::Size(rule, place, bound),
    }
}

/// A lemma that isn't accepted, by its number, from 1 on, and the first reason.
#[derive(Clone, Copy)]
pub struct Refusal {
    pub number: usize,
    pub reason: Reason,
}

/// Why a list of lemmas isn't accepted.
#[derive(Clone, Copy)]
pub enum LemmaFault {
    /// The first lemma that isn't accepted.
    Refused(Refusal),
    /// Memory ran out.
    Memory,
}

impl From<AllocError> for LemmaFault {
    ghost from_gives = { λ _ e. e ≡ faults.Memory };

    fn from(_error: AllocError) -> LemmaFault {
        LemmaFault::Memory
    }
}

impl<T: Drop> From<AllocFailed<T>> for LemmaFault {
    ghost from_gives = { λ _ e. e ≡ faults.Memory };

    fn from(_error: AllocFailed<T>) -> LemmaFault {
        LemmaFault::Memory
    }
}

/// The given facts, and after them the fact of each lemma, in order. If the given facts hold on all runs of the
/// program, all of these do.
///
/// # Errors
///
/// `Refused` with the first lemma that isn't accepted, given the facts before it, and the first reason why;
/// `Memory` where an allocation fails.
pub fn check_lemmas(
    alloc: Global,
    ground: Ground,
    facts: Vec<SignedFact>,
    lemmas: &[SignedLemma],
) -> Result<Vec<SignedFact>, LemmaFault>
    requires { IsPrepared ground }
    ensures judged { MatchResult result
        (λ found. Accepts (plain_ground ground.entry) (map fact_view facts.items) (map lemma_of lemmas.now)
        (map fact_view found.items))
        (λ fault. Refuses (plain_ground ground.entry) (map fact_view facts.items) (map lemma_of lemmas.now) fault) }
    ensures sound { IfOk result (λ found. AllSignedHold (program ground.entry) (map fact_view facts.items)
        → AllSignedHold (program ground.entry) (map fact_view found.items)) }
{
    potential_ground::rows_are_true_ground();
    potential_nodes::accepted_lemmas_hold();
    signed_bounds::squares_are_safe();
    let mut stated = facts;
    let mut never = flags_of(alloc, ground, &stated)?;
    for i in 0..lemmas.len() {
        let lemma = &lemmas[i];
        let refused = refusal_given(alloc, ground, &stated, &never, lemma)?;
        if let Some(reason) = refused {
            return Err(LemmaFault::Refused(Refusal {
                number: i + 1,
                reason,
            }));
        }
        let fact = fact_of(alloc, &stated, lemma)?;
        mark_never(&mut never, &fact);
        stated.push(fact)?;
    }
    Ok(stated)
}
