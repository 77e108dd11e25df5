//! Sums of sparse rows.

use crate::row_pairs::is_row;
use crate::words::{fraction, fraction_text, number, push_fractions, split_at_semicolon};
use frac128::Frac;
use model::Memory;
use simplex_core::{SparseError, SparseRow};
use std::alloc::{AllocError, Global};

// The row of entries, as in `0:1 2:1/2`, or none where the columns don't ascend or a fraction is 0.
fn row_of(alloc: Global, words: &str) -> Result<Option<SparseRow>, Memory> {
    let mut pairs = Vec::new(alloc);
    for word in words.split_whitespace() {
        let (col, value) = word.split_once(':').unwrap_or(("", word));
        if let Some(value) = fraction(value) {
            pairs.push((number(col), value))?;
        }
    }
    if is_row(&pairs) {
        Ok(Some(SparseRow::from_pairs(alloc, &pairs)?))
    } else {
        Ok(None)
    }
}

/// A row plus a multiple of another, or the column at which it is out of range; semicolons divide row, factor and row.
pub(crate) fn sum_text(alloc: Global, text: &str) -> Result<String, Memory> {
    let (row, behind) = split_at_semicolon(text);
    let (factor, other) = split_at_semicolon(behind);
    match (row_of(alloc, row)?, fraction(factor), row_of(alloc, other)?) {
        (Some(row), Some(factor), Some(other)) => match row.plus_multiple(alloc, factor, &other) {
            Ok(sum) => row_text(alloc, &sum),
            Err(SparseError::Range { col }) => format!(in alloc; "range at {col}"),
            Err(SparseError::Memory) => Err(AllocError),
        },
        _ => String::from_str(alloc, "no rows"),
    }
}

// The entries of a row and, after a bar, the fractions at its first ten columns.
fn row_text(alloc: Global, row: &SparseRow) -> Result<String, Memory> {
    let mut text = String::new(alloc);
    for index in 0..row.len() {
        let (col, fraction) = row.entry(index);
        let value = fraction_text(alloc, Some(fraction))?;
        text.push_str(format!(in alloc; "{col}:{value} ")?.as_str())?;
    }
    text.push_str("|")?;
    let mut first: Vec<Frac> = Vec::new(alloc);
    for col in 0..10u32 {
        first.push(row.at(col))?;
    }
    push_fractions(alloc, &mut text, &first)?;
    Ok(text)
}
