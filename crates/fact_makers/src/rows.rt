//! The rows of rules, facts and tests: a fact or a test has the row that it would have as an atom of a guard.

use guard_prep::RuleRows;
use int_laws::greatest_common_divisor;
use poly_terms::{Memory, Row};
use refined_programs::Affine;
use std::alloc::Global;

/// A row, in memory of its own.
///
/// # Errors
///
/// `Memory` where an allocation fails.
pub(crate) fn copied_row(alloc: Global, row: &Row) -> Result<Row, Memory> {
    Ok(Row {
        coefs: row.coefs.as_slice().to_vec(alloc)?,
        constant: row.constant,
    })
}

/// Rows, in memory of their own.
///
/// # Errors
///
/// `Memory` where an allocation fails.
pub(crate) fn copied_rows(alloc: Global, rows: &[Row]) -> Result<Vec<Row>, Memory> {
    let mut copies = Vec::new(alloc);
    for row in rows {
        copies.push(copied_row(alloc, row)?)?;
    }
    Ok(copies)
}

/// Of each group of rows with the same coefficients the strongest one, at the position of the group's first.
///
/// # Errors
///
/// `Memory` where an allocation fails.
pub(crate) fn strongest_rows(alloc: Global, rows: &[Row]) -> Result<Vec<Row>, Memory> {
    let mut kept: Vec<Row> = Vec::new(alloc);
    for row in rows {
        if !strengthen_listed(&mut kept, row) {
            kept.push(copied_row(alloc, row)?)?;
        }
    }
    Ok(kept)
}

// Strengthens the listed row with the same coefficients to the lesser constant; false if none is listed.
fn strengthen_listed(kept: &mut Vec<Row>, row: &Row) -> bool {
    for other in kept {
        if other.coefs == row.coefs {
            other.constant = other.constant.min(row.constant);
            return true;
        }
    }
    false
}

/// A form, in memory of its own.
///
/// # Errors
///
/// `Memory` where an allocation fails.
pub(crate) fn copied_form(alloc: Global, form: &Affine) -> Result<Affine, Memory> {
    Ok(Affine {
        coefs: form.coefs.as_slice().to_vec(alloc)?,
        constant: form.constant,
    })
}

// A form as a row that isn't tightened.
fn untightened_row(alloc: Global, form: &Affine) -> Result<Row, Memory> {
    let mut coefs = Vec::new(alloc);
    for coef in &form.coefs {
        coefs.push(i128::from(*coef))?;
    }
    Ok(Row {
        coefs,
        constant: i128::from(form.constant),
    })
}

/// The negation of a row over integers: it is at least 0 where the row is below 0.
///
/// # Errors
///
/// `Memory` where an allocation fails.
pub(crate) fn negated_row(alloc: Global, row: &Row) -> Result<Row, Memory> {
    let mut coefs = Vec::new(alloc);
    for coef in &row.coefs {
        coefs.push(coef.saturating_neg())?;
    }
    Ok(Row {
        coefs,
        constant: row.constant.saturating_neg().saturating_sub(1),
    })
}

/// Appends a row once it is divided by the greatest common divisor of its coefficients and its constant is rounded down;
/// nothing where it is constant and holds.
///
/// # Errors
///
/// `Memory` where an allocation fails.
pub(crate) fn push_tightened(alloc: Global, rows: &mut Vec<Row>, row: &Row) -> Result<(), Memory> {
    let mut common = 0u128;
    for coef in &row.coefs {
        common = greatest_common_divisor(common, coef.unsigned_abs());
    }
    let divisor = i128::try_from(common).unwrap_or(1);
    if divisor < 1 {
        if row.constant < 0 {
            rows.push(copied_row(alloc, row)?)?;
        }
        return Ok(());
    }
    let mut coefs = Vec::new(alloc);
    for coef in &row.coefs {
        coefs.push(coef.checked_div(divisor).unwrap_or(0))?;
    }
    rows.push(Row {
        coefs,
        constant: row.constant.checked_div_euclid(divisor).unwrap_or(0),
    })?;
    Ok(())
}

/// Appends the row of a fact or of a test.
///
/// # Errors
///
/// `Memory` where an allocation fails.
pub(crate) fn push_form(alloc: Global, rows: &mut Vec<Row>, form: &Affine) -> Result<(), Memory> {
    push_tightened(alloc, rows, &untightened_row(alloc, form)?)
}

/// Appends the row of a test that fails.
///
/// # Errors
///
/// `Memory` where an allocation fails.
pub(crate) fn push_negated(
    alloc: Global,
    rows: &mut Vec<Row>,
    form: &Affine,
) -> Result<(), Memory> {
    push_tightened(
        alloc,
        rows,
        &negated_row(alloc, &untightened_row(alloc, form)?)?,
    )
}

/// A form at the values after a rule, as a row over the rule's unknowns; none where it reads a place whose new value has
/// degree 2 or more.
///
/// # Errors
///
/// `Memory` where an allocation fails.
pub(crate) fn at_new_values(
    alloc: Global,
    rule: &RuleRows,
    form: &Affine,
) -> Result<Option<Row>, Memory> {
    if reads_nonlinear(rule, form) {
        return Ok(None);
    }
    let mut coefs = Vec::new(alloc);
    for unknown in 0..rule.unknowns {
        coefs.push(new_coefficient(rule, form, unknown as usize))?;
    }
    Ok(Some(Row {
        coefs,
        constant: new_constant(rule, form),
    }))
}

// Whether a form reads a place whose new value has degree 2 or more.
fn reads_nonlinear(rule: &RuleRows, form: &Affine) -> bool {
    for (i, coef) in form.coefs.iter().enumerate() {
        let is_nonlinear = match rule.nonlinear.get(i) {
            Some(found) => *found,
            None => true,
        };
        if *coef != 0 && is_nonlinear {
            return true;
        }
    }
    false
}

// The coefficient of an unknown in a form at the new values.
fn new_coefficient(rule: &RuleRows, form: &Affine, unknown: usize) -> i128 {
    let mut sum: i128 = 0;
    for (i, coef) in form.coefs.iter().enumerate() {
        if let Some(row) = rule.new_values.get(i) {
            if let Some(number) = row.coefs.get(unknown) {
                sum = sum.saturating_add(number.saturating_mul(i128::from(*coef)));
            }
        }
    }
    sum
}

// The constant of a form at the new values.
fn new_constant(rule: &RuleRows, form: &Affine) -> i128 {
    let mut sum = i128::from(form.constant);
    for (i, coef) in form.coefs.iter().enumerate() {
        if let Some(row) = rule.new_values.get(i) {
            sum = sum.saturating_add(row.constant.saturating_mul(i128::from(*coef)));
        }
    }
    sum
}
