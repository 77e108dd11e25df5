//! Products of polynomials, in time near-linear in the number of products of their monomials.

ghost use Rattle.std.specs.Prelude.{◌≡◌, ℕ, ◌+◌, ◌≤◌, ◌^◌, ◌+ℤ◌, nat_abs, length, map, OnOk};
ghost use Rattle.std.specs.BTreeMap.{is_at};
ghost use Rattle.std.specs.Map.{lookup};
ghost use Rattle.poly_terms.specs.Expanding.{added, all_added, without_zeros, multiplied, product_of};
ghost use Rattle.model.specs.Limits.{coefficient_limit, monomial_limit};
ghost use Rattle.poly_terms.specs.Faults.{fault_in};
ghost use Rattle.poly_terms.specs.Ordered.{IsBounded, IsOrdered, IsSmall};
ghost use Rattle.poly_terms.specs.Views.{monomial_of, monomials_of, poly_of};
ghost use Rattle.poly_terms.specs.Wide.{wide_value, sum_at, key_order, entries_of, IsWithin, AreWithin};
ghost use Rattle.poly_terms.specs.Answers.{Answers, GivesNarrow};

use crate::Memory;
use crate::factors::joined;
use crate::key_product::product_by_keys;
use crate::limits::limited;
use crate::nonzero::push_nonzero;
use crate::poly::{Monomial, Poly};
use crate::poly_error::PolyError;
use crate::scale::{constant_of, scaled};
use crate::wide::{Wide, narrow, wide_product, wide_sum};
use std::alloc::Global;
use std::collections::BTreeMap;

/// The product, or its least fault. If an operand is a constant, each coefficient of the other is multiplied in place.
pub(crate) fn limited_product(alloc: Global, p: Poly, q: Poly) -> Result<Poly, PolyError>
    requires left { IsSmall (poly_of p) }
    requires right { IsSmall (poly_of q) }
    requires left_ordered { IsOrdered (poly_of p) }
    requires right_ordered { IsOrdered (poly_of q) }
    ensures { let whole = product_of (poly_of p) (poly_of q) in Answers result (fault_in whole 1) whole }
{
    match constant_of(&q) {
        Some(factor) => limited(scaled(p, factor), 1),
        None => match constant_of(&p) {
            Some(factor) => limited(scaled(q, factor), 1),
            None => multiplied_out(alloc, &p, &q, 1),
        },
    }
}

/// The product by packed exponents or monomial by monomial, or its least fault as a power with this exponent.
pub(crate) fn multiplied_out(
    alloc: Global,
    p: &Poly,
    q: &Poly,
    exponent: u32,
) -> Result<Poly, PolyError>
    requires left { IsSmall (poly_of p.now) }
    requires right { IsSmall (poly_of q.now) }
    ensures { let whole = product_of (poly_of p.now) (poly_of q.now) in
        Answers result (fault_in whole exponent) whole }
{
    match product_by_keys(alloc, p, q) {
        Ok(Some(whole)) => limited(whole, exponent),
        Ok(None) => match product(alloc, p, q) {
            Ok(whole) => limited(whole, exponent),
            Err(error) => Err(error),
        },
        Err(_) => Err(PolyError::Memory),
    }
}

// The product, or the fault that a coefficient is too large.
fn product(alloc: Global, p: &Poly, q: &Poly) -> Result<Poly, PolyError>
    requires left { IsSmall (poly_of p.now) }
    requires right { IsSmall (poly_of q.now) }
    ensures { GivesNarrow result (product_of (poly_of p.now) (poly_of q.now)) }
{
    let mut sums = BTreeMap::new(alloc);
    for m in &p.terms {
        add_row(alloc, &mut sums, m, &q.terms)?;
    }
    collected(alloc, sums)
}

// Adds the products of a monomial with each of the others.
fn add_row(
    alloc: Global,
    sums: &mut BTreeMap<Vec<u32>, Wide>,
    m: &Monomial,
    terms: &[Monomial],
) -> Result<(), Memory>
    requires left { nat_abs m.now.coef ≤ coefficient_limit }
    requires right { IsBounded coefficient_limit (monomials_of terms.now) }
    requires few { length terms.now ≤ monomial_limit }
    requires within { AreWithin (2 ^ 30) sums.old.entries }
    ensures sums { OnOk result (entries_of sums.new.entries
        ≡ all_added (entries_of sums.old.entries) (map (multiplied (monomial_of m.now)) (monomials_of terms.now))) }
    ensures within { OnOk result ((n : ℕ) → AreWithin n sums.old.entries
        → AreWithin (n + length terms.now) sums.new.entries) }
{
    for n in terms {
        add_product(alloc, sums, m, n)?;
    }
    Ok(())
}

// Adds the product of two monomials.
fn add_product(
    alloc: Global,
    sums: &mut BTreeMap<Vec<u32>, Wide>,
    m: &Monomial,
    n: &Monomial,
) -> Result<(), Memory>
    requires left { nat_abs m.now.coef ≤ coefficient_limit }
    requires right { nat_abs n.now.coef ≤ coefficient_limit }
    requires within { AreWithin (2 ^ 31) sums.old.entries }
    ensures sums { OnOk result (entries_of sums.new.entries
        ≡ added (multiplied (monomial_of m.now) (monomial_of n.now)) (entries_of sums.old.entries)) }
    ensures within { OnOk result ((k : ℕ) → AreWithin k sums.old.entries → AreWithin (k + 1) sums.new.entries) }
{
    let vars = joined(alloc, &m.vars, &n.vars)?;
    let sum = sum_with(sums, &vars, wide_product(m.coef, n.coef));
    sums.insert(vars, sum)?;
    Ok(())
}

// The sum so far for a list of variables, with one more product.
fn sum_with(sums: &BTreeMap<Vec<u32>, Wide>, vars: &Vec<u32>, more: Wide) -> Wide
    requires so_far { AreWithin (2 ^ 31) sums.now.entries }
    requires one { IsWithin 1 more }
    ensures value { wide_value result
        ≡ sum_at (lookup (is_at (key_order vars.now)) sums.now.entries) +ℤ wide_value more }
    ensures within { (k : ℕ) → AreWithin k sums.now.entries → IsWithin (k + 1) result }
{
    match sums.get(vars) {
        Some(so_far) => wide_sum(*so_far, more),
        None => more,
    }
}

// The polynomial of the sums that aren't 0, or the fault that one is too large.
fn collected(alloc: Global, sums: BTreeMap<Vec<u32>, Wide>) -> Result<Poly, PolyError>
    requires { AreWithin (2 ^ 32) sums.entries }
    ensures { GivesNarrow result (without_zeros (entries_of sums.entries)) }
{
    let mut sums = sums;
    let mut terms = Vec::new(alloc);
    while let Some((vars, wide)) = sums.pop_first() {
        match narrow(wide) {
            None => return Err(PolyError::CoefTooLarge),
            Some(coef) => push_nonzero(&mut terms, coef, vars)?,
        }
    }
    Ok(Poly { terms })
}
