//! Polynomials made of monomials, and the value of constant ones.

use crate::error::{SearchError, negation, sum};
use poly_terms::{Memory, Monomial, Poly};
use potential_types::copied_monomials;
use std::alloc::Global;

/// The polynomial of one monomial, or 0 where its coefficient is 0.
///
/// # Errors
///
/// `Memory` where an allocation fails.
pub fn lone_poly(alloc: Global, coef: i128, vars: &[u32]) -> Result<Poly, Memory> {
    let mut terms = Vec::new(alloc);
    if coef != 0 {
        terms.push(Monomial {
            coef,
            vars: vars.to_vec(alloc)?,
        })?;
    }
    Ok(Poly { terms })
}

/// The value of a polynomial without variables; none where it has a variable.
pub fn constant_of(p: &Poly) -> Option<i128> {
    match p.terms.as_slice() {
        [] => Some(0),
        [only] if only.vars.is_empty() => Some(only.coef),
        _ => None,
    }
}

/// The sum of monomials, which may be in any order, and of which several may have the same variables.
///
/// # Errors
///
/// `Range` where a coefficient is beyond 128 bits; `Memory` where an allocation fails.
pub fn combined(alloc: Global, terms: Vec<Monomial>) -> Result<Poly, SearchError> {
    let mut terms = terms;
    terms.sort_unstable_by(|a, b| a.vars.as_slice().cmp(b.vars.as_slice()));
    let mut made: Vec<Monomial> = Vec::new(alloc);
    for term in terms {
        match made.pop() {
            Some(last) if last.vars.as_slice() == term.vars.as_slice() => {
                made.push(Monomial {
                    coef: sum(last.coef, term.coef)?,
                    vars: term.vars,
                })?;
            }
            Some(last) => {
                made.push(last)?;
                made.push(term)?;
            }
            None => made.push(term)?,
        }
    }
    made.retain(|m| m.coef != 0);
    Ok(Poly { terms: made })
}

/// A polynomial less a number.
///
/// # Errors
///
/// `Range` where a coefficient is beyond 128 bits; `Memory` where an allocation fails.
pub fn less_number(alloc: Global, p: &Poly, number: i128) -> Result<Poly, SearchError> {
    let mut terms = copied_monomials(alloc, &p.terms)?;
    terms.push(Monomial {
        coef: negation(number)?,
        vars: Vec::new(alloc),
    })?;
    combined(alloc, terms)
}
