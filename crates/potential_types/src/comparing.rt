//! Whether polynomials and charges are the same, and which variables a polynomial reads.

ghost use Rattle.std.specs.Prelude.{◌≡◌, [], ◌∷◌, map, IfOk};
ghost use Rattle.poly_terms.specs.Views.{monomials_of, poly_of};
ghost use Rattle.potential_nodes.specs.Facts.{same_variables as are_same_variables};
ghost use Rattle.potential_nodes.specs.Facts.{same_polynomial as are_same_polynomials};
ghost use Rattle.potential_nodes.specs.Facts.{same_charge as are_same_charge, same_charges as are_same_charges};
ghost use Rattle.potential_nodes.specs.Facts.{one_form as form_one, once_charge as charge_once};
ghost use Rattle.potential_nodes.specs.PolynomialTerms.{all_below as are_all_below, reads_below as is_reading_below};
ghost use Rattle.potential_types.specs.Views.{charge_of};

use crate::facts::Charge;
use poly_terms::{Memory, Monomial, Poly};
use std::alloc::Global;

// Whether two lists of variables are the same.
fn same_variables(vars: &[u32], others: &[u32]) -> bool
    ensures { result ≡ are_same_variables vars.now others.now }
{
    match (vars.split_first(), others.split_first()) {
        (None, None) => true,
        (Some((v, vs)), Some((w, ws))) => *v == *w && same_variables(vs, ws),
        _ => false,
    }
}

// Whether two lists of monomials are the same.
fn same_monomials(monomials: &[Monomial], others: &[Monomial]) -> bool
    ensures { result ≡ are_same_polynomials (monomials_of monomials.now) (monomials_of others.now) }
{
    match (monomials.split_first(), others.split_first()) {
        (None, None) => true,
        (Some((m, ms)), Some((n, ns))) => {
            m.coef == n.coef && same_variables(&m.vars, &n.vars) && same_monomials(ms, ns)
        }
        _ => false,
    }
}

/// Whether two polynomials are the same.
pub fn same_polynomial(p: &Poly, q: &Poly) -> bool
    ensures { result ≡ are_same_polynomials (poly_of p.now) (poly_of q.now) }
{
    same_monomials(&p.terms, &q.terms)
}

/// Whether two charges are the same.
pub fn same_charge(c: &Charge, d: &Charge) -> bool
    ensures { result ≡ are_same_charge (charge_of c.now) (charge_of d.now) }
{
    c.rule == d.rule && same_polynomial(&c.form, &d.form)
}

/// Whether two lists of charges are the same.
pub fn same_charges(charges: &[Charge], others: &[Charge]) -> bool
    ensures { result ≡ are_same_charges (map charge_of charges.now) (map charge_of others.now) }
{
    match (charges.split_first(), others.split_first()) {
        (None, None) => true,
        (Some((c, cs)), Some((d, ds))) => same_charge(c, d) && same_charges(cs, ds),
        _ => false,
    }
}

/// The polynomial 1.
///
/// # Errors
///
/// `Memory` where an allocation fails.
pub fn one_poly(alloc: Global) -> Result<Poly, Memory>
    ensures { IfOk result (λ p. poly_of p ≡ form_one) }
{
    let mut terms = Vec::new(alloc);
    terms.push(Monomial {
        coef: 1,
        vars: Vec::new(alloc),
    })?;
    Ok(Poly { terms })
}

// Whether a polynomial is 1, as it is written.
fn is_one(p: &Poly) -> bool
    ensures { result ≡ are_same_polynomials form_one (poly_of p.now) }
{
    match p.terms.split_first() {
        None => false,
        Some((only, others)) => only.coef == 1 && only.vars.is_empty() && others.is_empty(),
    }
}

/// Whether the charges are just 1 for each step by a rule.
pub(crate) fn is_once(rule: u32, charges: &[Charge]) -> bool
    ensures { result ≡ are_same_charges (charge_once rule ∷ []) (map charge_of charges.now) }
{
    match charges.split_first() {
        None => false,
        Some((only, others)) => { rule == only.rule && is_one(&only.form) && others.is_empty() }
    }
}

/// Whether the charges are just one polynomial, at the steps of a rule.
pub(crate) fn is_only(rule: u32, form: &Poly, charges: &[Charge]) -> bool
    ensures { result ≡ are_same_charges (record { rule = rule; form = poly_of form.now } ∷ []) (map charge_of charges.now) }
{
    match charges.split_first() {
        None => false,
        Some((only, others)) => {
            rule == only.rule && same_polynomial(form, &only.form) && others.is_empty()
        }
    }
}

// Whether all of these variables are among the first `count`.
fn all_below(count: u32, vars: &[u32]) -> bool
    ensures { result ≡ are_all_below count vars.now }
{
    match vars.split_first() {
        None => true,
        Some((variable, others)) => *variable < count && all_below(count, others),
    }
}

fn monomials_read_below(count: u32, monomials: &[Monomial]) -> bool
    ensures { result ≡ is_reading_below count (monomials_of monomials.now) }
{
    match monomials.split_first() {
        None => true,
        Some((monomial, others)) => {
            all_below(count, &monomial.vars) && monomials_read_below(count, others)
        }
    }
}

/// Whether a polynomial reads only the first `count` variables.
pub fn reads_below(count: u32, p: &Poly) -> bool
    ensures { result ≡ is_reading_below count (poly_of p.now) }
{
    monomials_read_below(count, &p.terms)
}
