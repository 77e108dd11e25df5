//! A plain and slow expansion: the monomials of an expression, in any order, or its first fault.

use model::Memory;
use poly_terms::{Expr, Monomial, Poly, PolyError};
use std::alloc::Global;

// The monomials of an expanded expression, or its first fault.
fn plain(alloc: Global, e: &Expr) -> Result<Vec<Monomial>, PolyError> {
    match e {
        Expr::Num(z) => {
            let terms = vec![in alloc; monomial(*z, Vec::new(alloc))]?;
            limited(alloc, terms, 1)
        }
        Expr::Var(i) => {
            let terms = vec![in alloc; monomial(1, vec![in alloc; *i]?)]?;
            limited(alloc, terms, 1)
        }
        Expr::Neg(e) => sum(alloc, Vec::new(alloc), -1, plain(alloc, e)?),
        Expr::Add(d, e) => {
            let left = plain(alloc, d)?;
            sum(alloc, left, 1, plain(alloc, e)?)
        }
        Expr::Sub(d, e) => {
            let left = plain(alloc, d)?;
            sum(alloc, left, -1, plain(alloc, e)?)
        }
        Expr::Mul(d, e) => {
            let left = plain(alloc, d)?;
            product(alloc, &left, &plain(alloc, e)?, 1)
        }
        Expr::Pow(e, exponent) => power(alloc, &plain(alloc, e)?, *exponent),
    }
}

fn monomial(coef: i128, vars: Vec<u32>) -> Monomial {
    Monomial { coef, vars }
}

// All powers of a polynomial, one after the other.
fn power(alloc: Global, base: &[Monomial], exponent: u32) -> Result<Vec<Monomial>, PolyError> {
    let one = vec![in alloc; monomial(1, Vec::new(alloc))]?;
    let mut so_far = limited(alloc, one, 0)?;
    for k in 0..exponent {
        match product(alloc, &so_far, base, k.saturating_add(1)) {
            Ok(next) => so_far = next,
            Err(error) => return Err(error),
        }
    }
    Ok(so_far)
}

// The sum of a polynomial and a multiple of another one.
fn sum(
    alloc: Global,
    p: Vec<Monomial>,
    factor: i128,
    q: Vec<Monomial>,
) -> Result<Vec<Monomial>, PolyError> {
    let mut terms = p;
    for m in q {
        add(&mut terms, monomial(m.coef.saturating_mul(factor), m.vars))?;
    }
    limited(alloc, terms, 1)
}

fn product(
    alloc: Global,
    p: &[Monomial],
    q: &[Monomial],
    exponent: u32,
) -> Result<Vec<Monomial>, PolyError> {
    let mut terms = Vec::new(alloc);
    for m in p {
        for n in q {
            let mut vars = m.vars.as_slice().to_vec(alloc)?;
            vars.extend_from_slice(n.vars.as_slice())?;
            vars.sort()?;
            add(&mut terms, monomial(m.coef.saturating_mul(n.coef), vars))?;
        }
    }
    limited(alloc, terms, exponent)
}

// Adds a monomial to the one with the same variables, or after the last.
fn add(terms: &mut Vec<Monomial>, m: Monomial) -> Result<(), Memory> {
    for i in 0..terms.len() {
        if terms[i].vars == m.vars {
            terms[i].coef = terms[i].coef.saturating_add(m.coef);
            return Ok(());
        }
    }
    Ok(terms.push(m)?)
}

// The monomials that aren't 0, or their least fault.
fn limited(alloc: Global, p: Vec<Monomial>, exponent: u32) -> Result<Vec<Monomial>, PolyError> {
    let mut degree = 0;
    let mut terms = Vec::new(alloc);
    for m in p {
        if m.coef > 0x7fff_ffff_ffff_ffff || m.coef < -0x7fff_ffff_ffff_ffff {
            return Err(PolyError::CoefTooLarge);
        }
        if m.coef != 0 {
            degree = degree.max(m.vars.len());
            terms.push(m)?;
        }
    }
    if terms.len() > 64 {
        Err(PolyError::TooManyTerms)
    } else if degree > 8 || exponent > 8 {
        Err(PolyError::DegreeTooHigh)
    } else {
        Ok(terms)
    }
}

// Whether a polynomial has these monomials, ascending, and no others.
fn is_same(p: &Poly, terms: &[Monomial]) -> bool {
    let mut before: Option<&Monomial> = None;
    for m in &p.terms {
        if let Some(last) = before
            && last.vars >= m.vars
        {
            return false;
        }
        if !terms.contains(m) {
            return false;
        }
        before = Some(m);
    }
    p.terms.len() == terms.len()
}

/// Whether an answer is that of the plain expansion of an expression.
pub(crate) fn is_plain(alloc: Global, e: &Expr, answer: &Result<Poly, PolyError>) -> bool {
    match (answer, plain(alloc, e)) {
        (Ok(p), Ok(terms)) => is_same(p, &terms),
        (Err(error), Err(other)) => *error == other,
        _ => false,
    }
}
