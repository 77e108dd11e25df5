//! Linear programs of many rows, with few nonzero numbers.

use crate::solutions::limit_text;
use crate::words::numbers;
use frac128::Frac;
use model::Memory;
use sample_questions::is_proper;
use simplex_core::{Entry, Problem, Solved, solve};
use std::alloc::Global;

// This many rows, each with a column of its own, or none with one: `x = 1` in the first rows and `-x = 0` in the
// others. Without a column all right sides are 0. And the first cost of each column.
#[derive(Clone, Copy)]
struct Many {
    rows: u32,
    cols: u32,
    ones: u32,
    cost: u32,
}

// The linear program.
fn problem_of(alloc: Global, many: Many) -> Result<Problem, Memory> {
    let mut entries = Vec::new(alloc);
    for col in 0..many.cols {
        let value = if col < many.ones { 1 } else { -1 };
        entries.push(Entry {
            row: col,
            col,
            value,
        })?;
    }
    let mut right = Vec::new(alloc);
    for row in 0..many.rows {
        right.push(if row < many.ones { 1 } else { 0 })?;
    }
    Ok(Problem {
        rows: many.rows,
        cols: many.cols,
        entries,
        right,
        first: vec![in alloc; i128::from(many.cost); many.cols as usize]?,
        second: vec![in alloc; 0; many.cols as usize]?,
    })
}

// The known end: each of the first rows takes a pivot, and is then solved for its column.
fn known(alloc: Global, many: Many) -> Result<Solved, Memory> {
    let mut at = Vec::new(alloc);
    for col in 0..many.cols {
        at.push(Frac::whole(if col < many.ones { 1 } else { 0 }))?;
    }
    let mut basis = Vec::new(alloc);
    for row in 0..many.rows {
        basis.push(if row < many.ones {
            row
        } else {
            many.cols.saturating_add(row)
        })?;
    }
    Ok(Solved::Optimal {
        at,
        basis,
        pivots: many.ones,
    })
}

// A number of 32 bits.
fn small(number: i128) -> u32 {
    u32::try_from(number).unwrap_or(0)
}

/// Whether a linear program with this many rows and columns, of which the first rows have a right side of 1, ends as is
/// known, or the limit that it exceeds. The last number is the first cost of each column.
pub(crate) fn many_rows(alloc: Global, text: &str) -> Result<String, Memory> {
    let measures = numbers(alloc, text)?;
    let many = match measures.as_slice() {
        [rows, cols, ones, cost] => Many {
            rows: small(*rows),
            cols: small(*cols),
            ones: small(*ones),
            cost: small(*cost),
        },
        _ => return String::from_str(alloc, "no measures"),
    };
    let problem = problem_of(alloc, many)?;
    if !is_proper(&problem) {
        return String::from_str(alloc, "not proper");
    }
    match solve(alloc, &problem, 10_000) {
        Ok(end) => if end == known(alloc, many)? {
            format!(in alloc; "optimal {}, as known", many.ones)
        } else {
            String::from_str(alloc, "another end")
        },
        Err(error) => limit_text(alloc, error),
    }
}
