//! Numbers, polynomials and certificates as a line writes them. A polynomial is monomials with `+` between them, as
//! `2*0*1+-1*2+3` for 2*x0*x1 - x2 + 3; a monomial with coefficient 0 is left out. A certificate is summands, each of
//! numbers with a dot between them: how often and a row; how often and two rows; or how often, a row, its opposite and
//! a variable.

use check_potentials::Memory;
use poly_terms::{Monomial, Poly};
use potential_types::Summand;
use std::alloc::Global;

/// A number, 0 where there is none.
pub(crate) fn number(text: &str) -> u32 {
    text.trim().parse::<u32>().unwrap_or(0)
}

/// A larger number.
pub(crate) fn long(text: &str) -> u64 {
    text.trim().parse::<u64>().unwrap_or(0)
}

/// A polynomial.
pub(crate) fn poly(alloc: Global, text: &str) -> Result<Poly, Memory> {
    let mut terms = Vec::new(alloc);
    for part in text.split('+') {
        let term = monomial(alloc, part)?;
        if term.coef != 0 {
            terms.push(term)?;
        }
    }
    Ok(Poly { terms })
}

// A monomial: its coefficient, and then its variables.
fn monomial(alloc: Global, text: &str) -> Result<Monomial, Memory> {
    let (coef, variables) = text.split_once('*').unwrap_or((text, ""));
    let mut vars = Vec::new(alloc);
    for word in variables.split('*') {
        if !word.is_empty() {
            vars.push(number(word))?;
        }
    }
    let coef = coef.trim().parse::<i64>().unwrap_or(0);
    Ok(Monomial {
        coef: i128::from(coef),
        vars,
    })
}

/// A certificate.
pub(crate) fn certificate(alloc: Global, text: &str) -> Result<Vec<Summand>, Memory> {
    let mut summands = Vec::new(alloc);
    for word in text.split_whitespace() {
        if let Some((times, rest)) = word.split_once('.') {
            summands.push(summand(times, rest))?;
        }
    }
    Ok(summands)
}

// A summand, by how often it counts, and its rows.
fn summand(times: &str, rows: &str) -> Summand {
    let Some((row, rest)) = rows.split_once('.') else {
        return Summand::OneRow {
            times: long(times),
            row: number(rows),
        };
    };
    match rest.split_once('.') {
        None => Summand::TwoRows {
            times: long(times),
            first: number(row),
            second: number(rest),
        },
        Some((opposite, variable)) => Summand::ZeroRow {
            times: times.parse::<i64>().unwrap_or(0),
            row: number(row),
            opposite: number(opposite),
            variable: number(variable),
        },
    }
}
