//! Which column enters the basis, and which row it enters by.

use crate::error::SolveError;
use crate::line::number_at;
use crate::numbers::product;
use crate::program::Equation;
use crate::tableau::Row;
use std::cmp::Ordering;

/// How the entering column and the leaving row are chosen.
#[derive(Clone, Copy, Debug, PartialEq, Eq)]
pub(crate) enum PivotRule {
    /// The column whose cost falls most, and the shortest of the rows that bound it most.
    Dantzig,
    /// The first column whose cost falls, and of the rows that bound it most the one whose basic column is first.
    Bland,
}

/// The entering column, where some cost is negative.
pub(crate) fn entering(costs: &Equation, rule: PivotRule) -> Option<u32> {
    let mut least = 0;
    let mut best = None;
    for entry in &costs.entries {
        if entry.value < least {
            if rule == PivotRule::Bland {
                return Some(entry.column);
            }
            least = entry.value;
            best = Some(entry.column);
        }
    }
    best
}

/// A row that bounds the entering column, with its number there and its right side.
#[derive(Clone, Copy, Debug)]
struct Candidate {
    index: usize,
    number: i128,
    right: i128,
    rank: u64,
}

/// The index of the row whose basic column leaves, where some row bounds the entering column.
pub(crate) fn leaving(
    rows: &[Row],
    column: u32,
    rule: PivotRule,
) -> Result<Option<usize>, SolveError> {
    let mut best: Option<Candidate> = None;
    for (index, row) in rows.iter().enumerate() {
        let number = number_at(&row.line, column);
        if number > 0 {
            let next = Candidate {
                index,
                number,
                right: row.line.right,
                rank: rank(row, rule),
            };
            best = Some(first_of(best, next)?);
        }
    }
    Ok(best.map(|b| b.index))
}

// The lesser rank is preferred among rows that bound a column equally: artificial unknowns leave first.
fn rank(row: &Row, rule: PivotRule) -> u64 {
    match row.basic {
        None => 0,
        Some(basic) => match rule {
            PivotRule::Dantzig => (row.line.entries.len() as u64).saturating_add(1),
            PivotRule::Bland => u64::from(basic).saturating_add(1),
        },
    }
}

// The one of two rows that bounds the entering column more, or has the lesser rank.
fn first_of(best: Option<Candidate>, next: Candidate) -> Result<Candidate, SolveError> {
    let Some(best) = best else {
        return Ok(next);
    };
    let here = product(best.right, next.number)?;
    let there = product(next.right, best.number)?;
    let is_better = match there.cmp(&here) {
        Ordering::Less => true,
        Ordering::Equal => next.rank < best.rank,
        Ordering::Greater => false,
    };
    Ok(if is_better { next } else { best })
}
