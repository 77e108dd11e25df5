//! Facts over absolute start values as signed facts.

ghost use Rattle.std.specs.Prelude.{◌≡◌, ◌+◌, ◌∷◌, [], None, map, option_map, IfOk};
ghost use Rattle.poly_terms.specs.Expanding.{expanded};
ghost use Rattle.poly_terms.specs.Faults.{first_fault};
ghost use Rattle.poly_terms.specs.Views.{term_of, poly_of};
ghost use Rattle.its_model.specs.Valid.{IsValid, IsValidCost};
ghost use Rattle.its_model.specs.Views.{program_of};
ghost use Rattle.refined_programs.specs.model.Programs.{rule_at as rule_numbered};
ghost use Rattle.cert_types.specs.Views.{fact_of, facts_of};
ghost use Rattle.potential_nodes.specs.Costs.{cost_form, cost_form_in};
ghost use Rattle.potential_nodes.specs.PlainFacts.{signed_fact as signed_fact_of};
ghost use Rattle.potential_types.specs.Views.{charge_of, fact_view};

use crate::bounds::signed_bound;
use cert_types::Fact;
use its_model::{Program, Rule};
use poly_terms::{Expr, Memory, Poly, expand};
use potential_types::{Charge, SignedFact, one_poly};
use refined_programs::rule_at;
use std::alloc::{AllocError, Global};

/// The signed facts of facts on a program, in order: a time becomes the sum of 1 for each step by the rule, a cost the
/// sum of the rule's cost for each step, and a size remains a size.
///
/// # Errors
///
/// `Memory` where an allocation fails.
pub fn signed_facts(alloc: Global, p: &Program, facts: &[Fact]) -> Result<Vec<SignedFact>, Memory>
    requires { IsValid (program_of p.now) }
    ensures { IfOk result
        (λ found. map fact_view found.items ≡ map (signed_fact_of (program_of p.now)) (facts_of facts.now)) }
{
    let mut found = Vec::new(alloc);
    for fact in facts {
        found.push(signed_fact(alloc, p, fact)?)?;
    }
    Ok(found)
}

// The signed fact of a fact on a program.
fn signed_fact(alloc: Global, p: &Program, fact: &Fact) -> Result<SignedFact, Memory>
    requires { IsValid (program_of p.now) }
    ensures { IfOk result (λ found. fact_view found ≡ signed_fact_of (program_of p.now) (fact_of fact.now)) }
{
    match fact {
        Fact::Time { rule, bound } => {
            let charges = single_charge(alloc, *rule, one_poly(alloc)?)?;
            Ok(SignedFact::Sum(charges, signed_bound(alloc, bound)?))
        }
        Fact::Size { rule, place, bound } => {
            Ok(SignedFact::Size(*rule, *place, signed_bound(alloc, bound)?))
        }
        Fact::Cost { rule, bound } => {
            let charges = single_charge(alloc, *rule, cost_at(alloc, p, *rule)?)?;
            Ok(SignedFact::Sum(charges, signed_bound(alloc, bound)?))
        }
    }
}

// A polynomial charged at the steps of a rule, and nothing else.
fn single_charge(alloc: Global, rule: u32, form: Poly) -> Result<Vec<Charge>, Memory>
    ensures { IfOk result
        (λ charges. map charge_of charges.items ≡ record { rule = rule; form = poly_of form } ∷ []) }
{
    let mut charges = Vec::new(alloc);
    charges.push(Charge { rule, form })?;
    Ok(charges)
}

// The cost of the steps of the rule with a number as a polynomial; 0 if there is no such rule.
fn cost_at(alloc: Global, p: &Program, rule: u32) -> Result<Poly, Memory>
    requires { IsValid (program_of p.now) }
    ensures { IfOk result (λ form. poly_of form ≡ cost_form_in (rule_numbered (program_of p.now) rule)) }
{
    match rule_at(p, rule) {
        None => Ok(Poly {
            terms: Vec::new(alloc),
        }),
        Some(found) => cost_of(alloc, found),
    }
}

// The cost of a rule's steps as a polynomial: the written cost, or 1 if none is written.
fn cost_of(alloc: Global, rule: &Rule) -> Result<Poly, Memory>
    requires { IsValidCost (rule.now.left + rule.now.free) (option_map term_of rule.now.cost) }
    ensures { IfOk result (λ form. poly_of form ≡ cost_form (option_map term_of rule.now.cost)) }
{
    match &rule.cost {
        None => one_poly(alloc),
        Some(cost) => expansion(alloc, cost),
    }
}

// The expanded polynomial of an expression without a fault.
fn expansion(alloc: Global, e: &Expr) -> Result<Poly, Memory>
    requires { first_fault (term_of e.now) ≡ None }
    ensures { IfOk result (λ form. poly_of form ≡ expanded (term_of e.now)) }
{
    match expand(alloc, e) {
        Ok(form) => Ok(form),
        Err(_) => Err(AllocError),
    }
}
