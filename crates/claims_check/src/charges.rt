//! Charges of polynomials for the steps of rules.

ghost use Rattle.std.specs.Prelude.{◌≡◌, map, option_map, IfOk, IfSome, None};
ghost use Rattle.poly_terms.specs.Views.{term_of, poly_of};
ghost use Rattle.poly_terms.specs.Expanding.{expanded};
ghost use Rattle.poly_terms.specs.Faults.{first_fault};
ghost use Rattle.its_model.specs.Valid.{IsValid};
ghost use Rattle.its_model.specs.Views.{program_of};
ghost use Rattle.potential_nodes.specs.Costs.{cost_form};
ghost use Rattle.potential_types.specs.Views.{charge_of};
ghost use Rattle.program_claims.specs.Copies.{charge_each as charge_for_each, cost_charges as charges_of_costs};

use its_model::Program;
use poly_terms::{Expr, Memory, Poly, expand};
use potential_types::{Charge, copied_poly, one_poly};
use std::alloc::{AllocError, Global};

// The expanded polynomial of an expression without a fault.
pub(crate) fn expansion(alloc: Global, e: &Expr) -> Result<Poly, Memory>
    requires { first_fault (term_of e.now) ≡ None }
    ensures { IfOk result (λ p. poly_of p ≡ expanded (term_of e.now)) }
{
    match expand(alloc, e) {
        Ok(p) => Ok(p),
        Err(_) => Err(AllocError),
    }
}

// The cost of a rule's steps as a polynomial; without a written cost it is 1.
fn cost_poly(alloc: Global, cost: &Option<Expr>) -> Result<Poly, Memory>
    requires { IfSome (option_map term_of cost.now) (λ c. first_fault c ≡ None) }
    ensures { IfOk result (λ p. poly_of p ≡ cost_form (option_map term_of cost.now)) }
{
    match cost {
        None => one_poly(alloc),
        Some(c) => expansion(alloc, c),
    }
}

// The charge of its cost for each step by each rule of a program.
pub(crate) fn cost_charges(alloc: Global, program: &Program) -> Result<Vec<Charge>, Memory>
    requires { IsValid (program_of program.now) }
    ensures { IfOk result (λ charges. map charge_of charges.items ≡ charges_of_costs 1 (program_of program.now).rules) }
{
    let mut charges = Vec::new(alloc);
    for i in 0..program.rules.len() {
        let form = cost_poly(alloc, &program.rules[i].cost)?;
        let rule = i as u32 + 1;
        charges.push(Charge { rule, form })?;
    }
    Ok(charges)
}

// A polynomial charged at each of these rules.
pub(crate) fn charge_each(alloc: Global, form: &Poly, rules: &[u32]) -> Result<Vec<Charge>, Memory>
    ensures { IfOk result (λ charges. map charge_of charges.items ≡ charge_for_each (poly_of form.now) rules.now) }
{
    let mut charges = Vec::new(alloc);
    for rule in rules {
        let form = copied_poly(alloc, form)?;
        charges.push(Charge { rule: *rule, form })?;
    }
    Ok(charges)
}
