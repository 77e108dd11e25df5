//! Rows of squares: where an update is affine but for a number times the square of a variable, its new value is
//! compared with affine forms that are nowhere above the square.

use crate::error::{SearchError, negation, product, sum};
use crate::sparse::{FormTerm, SparseForm, joined_terms};
use guard_prep::RuleRows;
use poly_terms::{Memory, Monomial};
use std::alloc::{AllocError, Global};

/// An affine form in one variable that is nowhere above its square.
#[derive(Clone, Copy, Debug)]
struct Line {
    slope: i128,
    offset: i128,
}

/// A number times the square of a variable.
#[derive(Clone, Copy, Debug)]
struct Square {
    coefficient: i128,
    variable: u32,
}

/// Appends the rows of squares of a rule with so many variables; a row with a large number is left out as 0.
pub(crate) fn push_square_rows(
    alloc: Global,
    rows: &mut Vec<SparseForm>,
    prepared: &RuleRows,
    variables: u32,
) -> Result<(), Memory> {
    let mut unknown = variables;
    for (update, is_nonlinear) in prepared.polys.iter().zip(prepared.nonlinear.iter()) {
        if *is_nonlinear {
            if let Some(square) = square_in(&update.terms) {
                // The order is that in which certificates count the rows.
                for (slope, offset) in [(0i128, 0i128), (1, 0), (-1, 0), (2, -1), (-2, -1)] {
                    let line = Line { slope, offset };
                    rows.push(square_row(alloc, unknown, &update.terms, square, line)?)?;
                }
            }
            unknown = unknown.saturating_add(1);
        }
    }
    Ok(())
}

// The square without which a polynomial is affine, if there is one.
fn square_in(monomials: &[Monomial]) -> Option<Square> {
    let mut found = None;
    for monomial in monomials {
        match monomial.vars.as_slice() {
            [] => (),
            [_] => (),
            [variable, other] if variable == other && found.is_none() => {
                found = Some(Square {
                    coefficient: monomial.coef,
                    variable: *variable,
                });
            }
            _ => return None,
        }
    }
    found
}

// The row of an unknown for a line, 0 where it has a large number.
fn square_row(
    alloc: Global,
    unknown: u32,
    monomials: &[Monomial],
    square: Square,
    line: Line,
) -> Result<SparseForm, Memory> {
    let nothing = SparseForm {
        terms: Vec::new(alloc),
        constant: 0,
    };
    match over_line(alloc, unknown, monomials, square, line) {
        Ok(row) => Ok(if row.is_small() { row } else { nothing }),
        Err(SearchError::Memory) => Err(AllocError),
        Err(SearchError::Range | SearchError::Budget) => Ok(nothing),
    }
}

// An unknown less the affine part of a polynomial and the square's coefficient times a line; its opposite where that
// coefficient is negative.
fn over_line(
    alloc: Global,
    unknown: u32,
    monomials: &[Monomial],
    square: Square,
    line: Line,
) -> Result<SparseForm, SearchError> {
    let sign = if square.coefficient < 0 { -1 } else { 1 };
    let size = product(sign, square.coefficient)?;
    let mut constant = negation(product(size, line.offset)?)?;
    let mut terms = Vec::new(alloc);
    terms.push(FormTerm {
        unknown,
        coefficient: sign,
    })?;
    terms.push(FormTerm {
        unknown: square.variable,
        coefficient: negation(product(size, line.slope)?)?,
    })?;
    for monomial in monomials {
        let taken = negation(product(sign, monomial.coef)?)?;
        match monomial.vars.as_slice() {
            [] => constant = sum(constant, taken)?,
            [variable] => terms.push(FormTerm {
                unknown: *variable,
                coefficient: taken,
            })?,
            _ => (),
        }
    }
    Ok(SparseForm {
        terms: joined_terms(terms)?,
        constant,
    })
}
