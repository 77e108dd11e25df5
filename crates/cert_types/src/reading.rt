//! The places that a side bound reads.

ghost use Rattle.std.specs.Prelude.{◌≡◌, not, map, IfOk};
ghost use Rattle.std.specs.List.{list_any};
ghost use Rattle.linear_forms.specs.int_laws.NormalForm.{is_zero};
ghost use Rattle.linear_forms.specs.Forms.{at};
ghost use Rattle.poly_terms.specs.model.Entries.{is_in};
ghost use Rattle.poly_terms.specs.Views.{monomial_of, poly_of};
ghost use Rattle.cert_program.specs.cert_rules.ComposedSizes.{reads as reads_of, has_variable as has_variable_of};
ghost use Rattle.cert_program.specs.Setting.{nonlinear_at};
ghost use Rattle.cert_types.specs.Composing.{optional_poly};
ghost use Rattle.cert_types.specs.Reading.{places_read as places_of};
ghost use Rattle.cert_types.specs.Views.{side_bound_of};

use crate::side_bound::SideBound;
use bound_expr::Memory;
use guard_prep::RuleRows;
use poly_terms::{Monomial, Poly};
use std::alloc::Global;

/// Whether a number is in a list.
#[tactic(auto, using(crate::proofs::Rules::in_found, crate::proofs::Rules::in_passed, crate::proofs::Rules::in_none))]
pub fn has_number(numbers: &[u32], number: u32) -> bool
    ensures { result ≡ is_in number numbers.now }
{
    for other in numbers {
        let is_same = number == *other;
        if is_same {
            return true;
        }
    }
    false
}

// Whether one of these monomials has the variable.
fn is_among(monomials: &[Monomial], variable: u32) -> bool
    ensures { result ≡ list_any (λ m. is_in variable m.vars) (map monomial_of monomials.now) }
{
    for monomial in monomials {
        let is_here = has_number(&monomial.vars, variable);
        if is_here {
            return true;
        }
    }
    false
}

// Whether a polynomial has the variable; where there is none, it hasn't.
fn has_variable(poly: Option<&Poly>, variable: u32) -> bool
    ensures { result ≡ has_variable_of (optional_poly poly.entry) variable }
{
    match poly {
        Some(q) => is_among(&q.terms, variable),
        None => false,
    }
}

// Whether a coefficient isn't 0; one that isn't listed is 0.
fn has_coefficient(coefs: &[i64], position: u32) -> bool
    ensures { result ≡ not (is_zero (at coefs.now position)) }
{
    (position as usize) < coefs.len() && coefs[position as usize] != 0
}

// Whether a side bound reads a place, numbered from 0.
fn reads(side_bound: &SideBound, poly: Option<&Poly>, place: u32) -> bool
    ensures { result ≡ reads_of (optional_poly poly.entry) (side_bound_of side_bound.now) place }
{
    match side_bound {
        SideBound::Linear { coefs, .. } => has_coefficient(coefs, place),
        SideBound::Poly => has_variable(poly, place),
    }
}

/// The places that a side bound reads, of the first `places` ones, ascending and numbered from 0. `poly` is the update,
/// if it has degree 2 or more.
///
/// # Errors
///
/// `Memory` where an allocation fails.
#[tactic(auto, using(crate::proofs::ReadPlaces::place_pushed, crate::proofs::ReadPlaces::place_passed))]
pub fn places_read(
    alloc: Global,
    side_bound: &SideBound,
    poly: Option<&Poly>,
    left: u32,
) -> Result<Vec<u32>, Memory>
    ensures { IfOk result (λ places. places.items ≡ places_of (optional_poly poly.entry) (side_bound_of side_bound.now) left) }
{
    let mut places = Vec::new(alloc);
    for place in 0..left {
        let is_read = reads(side_bound, poly, place);
        if is_read {
            places.push(place)?;
        }
    }
    Ok(places)
}

/// The update at a position of the rows of a rule, numbered from 0, where it has degree 2 or more.
#[tactic(auto, using(crate::proofs::NonlinearUpdates::updates))]
pub fn nonlinear_update(prepared_rule: &RuleRows, position: usize) -> Option<&Poly>
    ensures { optional_poly result ≡ nonlinear_at (map poly_of prepared_rule.now.polys.items) position }
{
    if position >= prepared_rule.polys.len() {
        return None;
    }
    let poly = &prepared_rule.polys[position];
    if poly.degree() > 1 { Some(poly) } else { None }
}
