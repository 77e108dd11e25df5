//! Affine forms over the unknowns of a rule, by their coefficients that aren't 0.

use crate::error::{SearchError, product, sum};
use poly_terms::{Memory, Row};
use std::alloc::Global;

/// A row with a coefficient over this is left out of every question.
const COEFFICIENT_LIMIT: u128 = 1 << 40;

/// A coefficient that isn't 0.
#[derive(Clone, Copy, Debug, PartialEq, Eq)]
pub struct FormTerm {
    /// The number of the unknown, from 0.
    pub unknown: u32,
    pub coefficient: i128,
}

/// An affine form: its coefficients by ascending unknowns, and its constant.
#[derive(Debug, Drop)]
pub struct SparseForm {
    pub terms: Vec<FormTerm>,
    pub constant: i128,
}

/// The form of a row.
pub(crate) fn sparse_of(alloc: Global, row: &Row) -> Result<SparseForm, Memory> {
    let mut terms = Vec::new(alloc);
    let mut unknown = 0u32;
    for coefficient in &row.coefs {
        if *coefficient != 0 {
            terms.push(FormTerm {
                unknown,
                coefficient: *coefficient,
            })?;
        }
        unknown = unknown.saturating_add(1);
    }
    Ok(SparseForm {
        terms,
        constant: row.constant,
    })
}

/// The form of a row, or 0 where it has a large number: a row that is left out.
pub(crate) fn small_sparse_of(alloc: Global, row: &Row) -> Result<SparseForm, Memory> {
    if is_small(row.constant) && row.coefs.iter().all(|c| is_small(*c)) {
        sparse_of(alloc, row)
    } else {
        Ok(SparseForm {
            terms: Vec::new(alloc),
            constant: 0,
        })
    }
}

// Whether a number is small enough for a question.
fn is_small(number: i128) -> bool {
    number.unsigned_abs() <= COEFFICIENT_LIMIT
}

/// Terms by ascending unknowns, with those of one unknown added, and without zeros.
pub(crate) fn joined_terms(terms: Vec<FormTerm>) -> Result<Vec<FormTerm>, SearchError> {
    let mut terms = terms;
    terms.sort_unstable_by_key(|t| t.unknown);
    let mut made: Vec<FormTerm> = Vec::new(*terms.allocator());
    for term in &terms {
        match made.pop() {
            Some(last) if last.unknown == term.unknown => made.push(FormTerm {
                unknown: last.unknown,
                coefficient: sum(last.coefficient, term.coefficient)?,
            })?,
            Some(last) => {
                made.push(last)?;
                made.push(*term)?;
            }
            None => made.push(*term)?,
        }
    }
    made.retain(|t| t.coefficient != 0);
    Ok(made)
}

impl SparseForm {
    /// Whether its numbers are small enough for a question.
    pub(crate) fn is_small(&self) -> bool {
        is_small(self.constant) && self.terms.iter().all(|term| is_small(term.coefficient))
    }

    /// Whether it is the negation of another form, and has an unknown.
    pub(crate) fn is_opposite_of(&self, other: &SparseForm) -> bool {
        !self.terms.is_empty()
            && self.terms.len() == other.terms.len()
            && are_opposite(self.constant, other.constant)
            && self.terms.iter().zip(other.terms.iter()).all(|(a, b)| a.unknown == b.unknown
                && are_opposite(a.coefficient, b.coefficient))
    }

    /// Whether the number of each of its unknowns is below a count.
    pub fn reads_below(&self, count: u32) -> bool {
        self.terms.iter().all(|term| term.unknown < count)
    }

    /// Its value at values of the unknowns; an unknown without a value counts as 0.
    pub(crate) fn value_at(&self, values: &[i128]) -> Result<i128, SearchError> {
        let mut value = self.constant;
        for term in &self.terms {
            let at = values.get(term.unknown as usize).copied().unwrap_or(0);
            value = sum(value, product(term.coefficient, at)?)?;
        }
        Ok(value)
    }
}

// Whether the sum of two numbers is 0.
fn are_opposite(a: i128, b: i128) -> bool {
    a.checked_add(b) == Some(0)
}
