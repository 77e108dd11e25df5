//! The linear program of a line.

use crate::words::{number, numbers, split_at_semicolon};
use model::Memory;
use simplex_core::{Entry, Problem};
use std::alloc::Global;

/// A linear program and the allowed pivots.
#[derive(Debug, Drop)]
pub(crate) struct Task {
    pub(crate) problem: Problem,
    pub(crate) pivots: u32,
}

/// The task of a line, whose parts semicolons divide: the allowed pivots, the first costs, the second costs, and the
/// equations with commas between them. An equation is its entries, each a column and a number, and its right side, as
/// in `0:1 2:-1 = 3`. None for another line.
pub(crate) fn task_of(alloc: Global, text: &str) -> Result<Option<Task>, Memory> {
    let (pivots, behind) = split_at_semicolon(text);
    let (first, behind) = split_at_semicolon(behind);
    let (second, equations) = split_at_semicolon(behind);
    let first = numbers(alloc, first)?;
    let mut problem = Problem {
        rows: 0,
        cols: u32::try_from(first.len()).unwrap_or(0),
        entries: Vec::new(alloc),
        right: Vec::new(alloc),
        first,
        second: numbers(alloc, second)?,
    };
    for equation in equations.split(',') {
        if !equation.trim().is_empty() && !is_added(&mut problem, equation)? {
            return Ok(None);
        }
    }
    Ok(Some(Task {
        problem,
        pivots: number(pivots),
    }))
}

// Adds an equation to a linear program; whether it is one.
fn is_added(problem: &mut Problem, equation: &str) -> Result<bool, Memory> {
    let Some((entries, right)) = equation.split_once('=') else {
        return Ok(false);
    };
    for word in entries.split_whitespace() {
        match entry_of(problem.rows, word) {
            Some(entry) => problem.entries.push(entry)?,
            None => return Ok(false),
        }
    }
    match right.trim().parse::<i128>() {
        Ok(right) => problem.right.push(right)?,
        Err(_) => return Ok(false),
    }
    problem.rows = problem.rows.saturating_add(1);
    Ok(true)
}

// The entry of a row.
fn entry_of(row: u32, word: &str) -> Option<Entry> {
    let (col, value) = word.split_once(':')?;
    Some(Entry {
        row,
        col: col.parse::<u32>().ok()?,
        value: value.parse::<i128>().ok()?,
    })
}
