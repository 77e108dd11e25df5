//! Sums of polynomials.

ghost use Rattle.std.specs.Prelude.{◌≡◌, ◌≢◌, ◌+◌, ◌<◌, ◌≤◌, ◌^◌, nat_abs, length, true, false, slice_index_or, IfOk};
ghost use Rattle.std.specs.Prelude.{OnOk};
ghost use Rattle.poly_terms.specs.declared.poly.Monomial.{Monomial};
ghost use Rattle.std.specs.Ordering.{is_lt};
ghost use Rattle.poly_terms.specs.Expanding.{order, added, sum_of};
ghost use Rattle.poly_terms.specs.Faults.{fault_in};
ghost use Rattle.poly_terms.specs.Ordered.{IsAscending, IsBounded, IsSmall};
ghost use Rattle.poly_terms.specs.Positions.{position_in};
ghost use Rattle.poly_terms.specs.Views.{monomial_of, monomials_of, poly_of};
ghost use Rattle.poly_terms.specs.Answers.{Answers};

use crate::Memory;
use crate::limits::limited;
use crate::merge::merged;
use crate::nonzero::nonzero;
use crate::poly::{Monomial, Poly};
use crate::poly_error::PolyError;
use crate::scale::set_coefficient;
use std::alloc::Global;

/// The sum, or its least fault.
pub(crate) fn limited_sum(alloc: Global, p: Poly, q: Poly) -> Result<Poly, PolyError>
    requires ascending { IsAscending (poly_of p) }
    requires right_ascending { IsAscending (poly_of q) }
    requires left { IsSmall (poly_of p) }
    requires right { IsSmall (poly_of q) }
    ensures { let whole = sum_of (poly_of p) (poly_of q) in Answers result (fault_in whole 1) whole }
{
    match sum(alloc, p, q) {
        Ok(whole) => limited(whole, 1),
        Err(_) => Err(PolyError::Memory),
    }
}

// The sum: a single monomial is inserted at its position, and longer lists are merged.
fn sum(alloc: Global, p: Poly, q: Poly) -> Result<Poly, Memory>
    requires ascending { IsAscending (poly_of p) }
    requires right_ascending { IsAscending (poly_of q) }
    requires left { IsSmall (poly_of p) }
    requires right { IsSmall (poly_of q) }
    ensures { IfOk result (λ whole. poly_of whole ≡ sum_of (poly_of p) (poly_of q)) }
{
    if q.terms.len() < 2 {
        sum_by_insertion(p, q)
    } else if p.terms.len() < 2 {
        sum_by_insertion(q, p)
    } else {
        merged(alloc, p, q)
    }
}

// The sum: each monomial of the second polynomial is inserted at its position.
fn sum_by_insertion(p: Poly, q: Poly) -> Result<Poly, Memory>
    requires ascending { IsAscending (poly_of p) }
    requires left { IsSmall (poly_of p) }
    requires right { IsSmall (poly_of q) }
    ensures { IfOk result (λ whole. poly_of whole ≡ sum_of (poly_of p) (poly_of q)) }
{
    let mut terms = p.terms;
    for m in q.terms {
        add(&mut terms, m)?;
    }
    Ok(Poly {
        terms: nonzero(terms),
    })
}

/// Adds a monomial.
pub(crate) fn add(terms: &mut Vec<Monomial>, m: Monomial) -> Result<(), Memory>
    requires ascending { IsAscending (monomials_of terms.old.items) }
    requires before { IsBounded (2 ^ 100) (monomials_of terms.old.items) }
    requires small { nat_abs m.coef ≤ 2 ^ 100 }
    ensures { OnOk result (monomials_of terms.new.items ≡ added (monomial_of m) (monomials_of terms.old.items)) }
{
    let i = position_of(terms, &m.vars);
    if has_variables_at(terms, i, &m.vars) {
        let coef = terms[i].coef + m.coef;
        set_coefficient(terms, i, coef);
    } else {
        terms.insert(i, m)?;
    }
    Ok(())
}

// Whether there is a monomial at i with these variables.
fn has_variables_at(terms: &[Monomial], i: usize, vars: &Vec<u32>) -> bool
    ensures yes { result ≡ true → i < length terms.now }
    ensures same { result ≡ true → (d : Monomial) → (slice_index_or terms.now i d).vars.items ≡ vars.now.items }
    ensures other { result ≡ false → i < length terms.now
        → (d : Monomial) → (slice_index_or terms.now i d).vars.items ≢ vars.now.items }
{
    if i < terms.len() {
        terms[i].vars == *vars
    } else {
        false
    }
}

// The position of a list of variables, by binary search; a list after the last one is found at once.
fn position_of(terms: &[Monomial], vars: &Vec<u32>) -> usize
    requires { IsAscending (monomials_of terms.now) }
    ensures { result ≡ position_in vars.now.items (monomials_of terms.now) }
{
    let mut low = 0;
    let mut high = terms.len();
    let mut middle = high.saturating_sub(1);
    while low < high {
        if comes_before(&terms[middle], vars) {
            low = middle + 1;
        } else {
            high = middle;
        }
        middle = low + (high - low) / 2;
    }
    low
}

// Whether a monomial's variables come before these.
fn comes_before(m: &Monomial, vars: &Vec<u32>) -> bool
    ensures { result ≡ is_lt (order m.now.vars.items vars.now.items) }
{
    m.vars.cmp(vars).is_lt()
}
