//! Equations as lines of a tableau: the number at a column, and a line cleared at a column by another one.

use crate::error::SolveError;
use crate::numbers::{common_divisor, difference_of_products, divided, negation};
use crate::program::{Entry, Equation};
use std::alloc::Global;

/// The number of a line at a column, 0 where it has none.
pub(crate) fn number_at(line: &Equation, column: u32) -> i128 {
    match line.entries.binary_search_by_key(&column, |e| e.column) {
        Ok(index) => match line.entries.get(index) {
            Some(entry) => entry.value,
            None => 0,
        },
        Err(_) => 0,
    }
}

/// The line with the other sign.
pub(crate) fn negated(alloc: Global, line: &Equation) -> Result<Equation, SolveError> {
    let mut entries = Vec::with_capacity(alloc, line.entries.len())?;
    for entry in &line.entries {
        entries.push(Entry {
            column: entry.column,
            value: negation(entry.value)?,
        })?;
    }
    Ok(Equation {
        entries,
        right: negation(line.right)?,
    })
}

/// A line cleared at a column by a line that has a positive number there: a positive multiple of it less a multiple of the
/// other, divided by the greatest common divisor of its numbers.
pub(crate) fn cleared(
    alloc: Global,
    line: &Equation,
    by: &Equation,
    column: u32,
) -> Result<Equation, SolveError> {
    let here = number_at(line, column);
    let there = number_at(by, column);
    let divisor = common_divisor(here, there);
    let times = divided(there, divisor);
    let less = divided(here, divisor);
    let right = difference_of_products(times, line.right, less, by.right)?;
    let entries = merged(alloc, &line.entries, times, &by.entries, less)?;
    Ok(primitive(Equation { entries, right }))
}

/// Entries a number of times, less others a number of times.
pub(crate) fn merged(
    alloc: Global,
    left: &[Entry],
    times: i128,
    right: &[Entry],
    less: i128,
) -> Result<Vec<Entry>, SolveError> {
    let most = left.len().saturating_add(right.len());
    let mut made = Vec::with_capacity(alloc, most)?;
    let mut left = left;
    let mut right = right;
    for _ in 0..most {
        let Some(column) = least_column(left, right) else {
            break;
        };
        let (a, left_rest) = taken(left, column);
        let (b, right_rest) = taken(right, column);
        let value = difference_of_products(times, a, less, b)?;
        if value != 0 {
            made.push(Entry { column, value })?;
        }
        left = left_rest;
        right = right_rest;
    }
    Ok(made)
}

// The lesser of the first columns of two lists.
fn least_column(left: &[Entry], right: &[Entry]) -> Option<u32> {
    match (left.first(), right.first()) {
        (None, None) => None,
        (Some(a), None) => Some(a.column),
        (None, Some(b)) => Some(b.column),
        (Some(a), Some(b)) => Some(a.column.min(b.column)),
    }
}

// The number of a list at a column that is its first one or before it, and the entries behind.
fn taken(entries: &[Entry], column: u32) -> (i128, &[Entry]) {
    match entries.split_first() {
        Some((first, rest)) if first.column == column => (first.value, rest),
        _ => (0, entries),
    }
}

// A line divided by the greatest common divisor of its numbers.
fn primitive(line: Equation) -> Equation {
    let divisor = content(&line);
    if divisor <= 1 {
        return line;
    }
    let Equation { entries, right } = line;
    let mut entries = entries;
    for entry in &mut entries {
        entry.value = divided(entry.value, divisor);
    }
    Equation {
        entries,
        right: divided(right, divisor),
    }
}

// The greatest common divisor of a line's numbers, 1 where all are 0.
fn content(line: &Equation) -> i128 {
    if line.entries.iter().any(|e| e.value == 1 || e.value == -1) {
        return 1;
    }
    let mut divisor = line.right;
    for entry in &line.entries {
        divisor = common_divisor(divisor, entry.value);
        if divisor == 1 {
            return 1;
        }
    }
    common_divisor(divisor, 0)
}
