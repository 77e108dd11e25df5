//! Certificates and points on rows. Rows are divided by commas, and the last number of each is its constant.

ghost use Rattle.std.specs.Prelude.{All, IsTrue, map};
ghost use Rattle.poly_terms.specs.Views.{form_of};
ghost use Rattle.farkas_cert.specs.Sizes.{AreWithinLimit, AreParts, AreRowNumbers, AreSmall, HasRowNumbers};

use crate::words::numbers;
use farkas_cert::{LIMIT, Scaled, empty, implies, on_rows};
use linear_forms::POINT_LIMIT;
use model::Memory;
use poly_terms::Row;
use std::alloc::Global;

// The row of a text.
fn row(alloc: Global, words: &str) -> Result<Row, Memory> {
    let mut coefs = numbers(alloc, words)?;
    let constant = coefs.pop().unwrap_or(0);
    Ok(Row { coefs, constant })
}

// The rows of a text.
fn rows(alloc: Global, text: &str) -> Result<Vec<Row>, Memory> {
    let mut rows = Vec::new(alloc);
    for words in text.split(',') {
        if !words.trim().is_empty() {
            rows.push(row(alloc, words)?)?;
        }
    }
    Ok(rows)
}

// Whether the numbers of a list are below 2^63.
fn are_row_numbers(numbers: &[i128]) -> bool
    ensures { IsTrue result → AreRowNumbers numbers.now }
{
    for number in numbers {
        if number.unsigned_abs() >= 1 << 63 {
            return false;
        }
    }
    true
}

// Whether the numbers of a row are below 2^63.
fn has_row_numbers(row: &Row) -> bool
    ensures { IsTrue result → HasRowNumbers (form_of row.now) }
{
    are_row_numbers(&row.coefs) && row.constant.unsigned_abs() < 1 << 63
}

// Whether the numbers of all rows are below 2^63.
fn have_row_numbers(rows: &[Row]) -> bool
    ensures { IsTrue result → All HasRowNumbers (map form_of rows.now) }
{
    for row in rows {
        if !has_row_numbers(row) {
            return false;
        }
    }
    true
}

// Whether there are few enough rows, with small enough numbers, to check certificates on them.
fn are_small(rows: &[Row]) -> bool
    ensures { IsTrue result → AreSmall (map form_of rows.now) }
{
    rows.len() <= 128 && have_row_numbers(rows)
}

// Whether multipliers are within their limit.
fn are_multipliers(multipliers: &[u64]) -> bool
    ensures { IsTrue result → AreWithinLimit multipliers.now }
{
    for multiplier in multipliers {
        if *multiplier > LIMIT {
            return false;
        }
    }
    true
}

// The multipliers of a text.
fn multipliers_of(alloc: Global, words: &str) -> Result<Vec<u64>, Memory> {
    let mut found = Vec::new(alloc);
    for number in numbers(alloc, words)? {
        found.push(u64::try_from(number).unwrap_or(0))?;
    }
    Ok(found)
}

/// Whether the rows imply a goal by their multipliers, or show by them that they have no point: semicolons divide rows,
/// multipliers and goal.
pub(crate) fn certified(alloc: Global, call: &str, text: &str) -> Result<String, Memory> {
    let (listed, by) = text.split_once(';').unwrap_or((text, ""));
    let (words, goal) = by.split_once(';').unwrap_or((by, ""));
    let rows = rows(alloc, listed)?;
    let multipliers = multipliers_of(alloc, words)?;
    if !are_small(&rows) || !are_multipliers(&multipliers) {
        return String::from_str(alloc, "exceeds the limits");
    }
    if call == "empty" {
        return format!(in alloc; "{}", empty(&rows, &multipliers));
    }
    let goal = row(alloc, goal)?;
    format!(in alloc; "{}", implies(&rows, &multipliers, &goal))
}

// Whether the parts of a point are within their limit.
fn are_parts(parts: &[i64]) -> bool
    ensures { IsTrue result → AreParts parts.now }
{
    for part in parts {
        if part.unsigned_abs() > POINT_LIMIT {
            return false;
        }
    }
    true
}

// The parts of a point of a text.
fn parts_of(alloc: Global, words: &str) -> Result<Vec<i64>, Memory> {
    let mut parts = Vec::new(alloc);
    for number in numbers(alloc, words)? {
        parts.push(i64::try_from(number).unwrap_or(0))?;
    }
    Ok(parts)
}

/// Whether a point is on the rows: semicolons divide rows, parts and denominator.
pub(crate) fn point_text(alloc: Global, text: &str) -> Result<String, Memory> {
    let (listed, at) = text.split_once(';').unwrap_or((text, ""));
    let (words, den) = at.split_once(';').unwrap_or((at, ""));
    let rows = rows(alloc, listed)?;
    let at = Scaled {
        parts: parts_of(alloc, words)?,
        den: den.trim().parse::<u64>().unwrap_or(0),
    };
    if !have_row_numbers(&rows) || !are_parts(&at.parts) {
        return String::from_str(alloc, "exceeds the limits");
    }
    if at.parts.len() > 128 || at.den > POINT_LIMIT {
        return String::from_str(alloc, "exceeds the limits");
    }
    format!(in alloc; "{}", on_rows(&rows, &at))
}
