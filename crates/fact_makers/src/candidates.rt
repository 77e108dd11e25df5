//! The forms that are tried as facts of a symbol.

use guard_prep::RuleRows;
use its_model::Program;
use poly_terms::{Memory, Row};
use refined_programs::{Affine, arity_of};
use std::alloc::Global;

// The most forms that are tried at a symbol.
const FORM_LIMIT: usize = 480;

// Single places are tried up to this number.
const PLACE_LIMIT: u32 = 8;

// Pairs are tried of places up to this number.
const PAIR_LIMIT: u32 = 4;

// The most constants of the program that are tried.
const CONSTANT_LIMIT: usize = 24;

/// A program with the rows of its rules, in order, and the constants that are tried.
#[derive(Clone, Copy)]
pub(crate) struct PreparedProgram<'a> {
    pub program: &'a Program,
    pub rows: &'a [RuleRows],
    pub constants: &'a [i64],
}

/// The forms that are tried at a symbol: those of the guards of the rules that leave it, over its places alone, and their
/// negations; single places, and sums and differences of two places, with either sign. Each comes with each of the
/// constants that are tried, the nearest to 0 first.
///
/// # Errors
///
/// `Memory` where an allocation fails.
pub(crate) fn candidates_at(
    alloc: Global,
    prepared: PreparedProgram<'_>,
    symbol: u32,
) -> Result<Vec<Affine>, Memory> {
    let constants = prepared.constants;
    let arity = arity_of(prepared.program, symbol);
    let mut forms = Vec::new(alloc);
    let guards = guard_directions(alloc, prepared, symbol)?;
    push_with_constants(alloc, &mut forms, &guards, constants)?;
    push_with_constants(
        alloc,
        &mut forms,
        &place_directions(alloc, arity)?,
        constants,
    )?;
    push_with_constants(
        alloc,
        &mut forms,
        &pair_directions(alloc, arity)?,
        constants,
    )?;
    Ok(forms)
}

// Appends the forms with these coefficients and each of the constants.
fn push_with_constants(
    alloc: Global,
    forms: &mut Vec<Affine>,
    directions: &[Vec<i64>],
    constants: &[i64],
) -> Result<(), Memory> {
    for coefs in directions {
        for constant in constants {
            push_new(alloc, forms, coefs, *constant)?;
        }
    }
    Ok(())
}

// Appends a form, unless it is listed or there are many.
fn push_new(
    alloc: Global,
    forms: &mut Vec<Affine>,
    coefs: &[i64],
    constant: i64,
) -> Result<(), Memory> {
    if forms.len() >= FORM_LIMIT || is_listed(forms, coefs, constant) {
        return Ok(());
    }
    forms.push(Affine {
        coefs: coefs.to_vec(alloc)?,
        constant,
    })?;
    Ok(())
}

// Whether a form is listed.
fn is_listed(forms: &[Affine], coefs: &[i64], constant: i64) -> bool {
    for form in forms {
        if form.constant == constant && form.coefs.as_slice() == coefs {
            return true;
        }
    }
    false
}

/// The constants that are tried, for the rows of all rules: 0, 1 and -1, those of the guards' rows and of the new values,
/// their opposites, and those beside them; of these the 24 nearest to 0, the nearest first.
///
/// # Errors
///
/// `Memory` where an allocation fails.
pub(crate) fn constants_of(alloc: Global, prepared_rules: &[RuleRows]) -> Result<Vec<i64>, Memory> {
    let mut constants = Vec::new(alloc);
    for near in [0i64, 1, -1] {
        constants.push(near)?;
    }
    for rule in prepared_rules {
        constants = with_constants(alloc, constants, &rule.rows)?;
        constants = with_constants(alloc, constants, &rule.new_values)?;
    }
    Ok(constants)
}

// The nearest to 0 of these constants, and of those of rows, their opposites and those beside them.
fn with_constants(alloc: Global, near: Vec<i64>, rows: &[Row]) -> Result<Vec<i64>, Memory> {
    let mut constants = near;
    for row in rows {
        if let Ok(constant) = i64::try_from(row.constant) {
            for own in [
                constant,
                constant.saturating_add(1),
                constant.saturating_neg(),
                constant.saturating_neg().saturating_sub(1),
            ] {
                constants = with_constant(alloc, &constants, own)?;
            }
        }
    }
    Ok(constants)
}

// The nearest to 0 of some constants, the nearest first, and of one more.
fn with_constant(alloc: Global, near: &[i64], constant: i64) -> Result<Vec<i64>, Memory> {
    let mut constants = Vec::new(alloc);
    let mut is_listed = near.contains(&constant);
    for other in near {
        if !is_listed && constant.unsigned_abs() < other.unsigned_abs() {
            constants.push(constant)?;
            is_listed = true;
        }
        constants.push(*other)?;
    }
    if !is_listed {
        constants.push(constant)?;
    }
    constants.truncate(CONSTANT_LIMIT);
    Ok(constants)
}

// The coefficients of the guards of the rules that leave a symbol, and their negations, where they read places alone.
fn guard_directions(
    alloc: Global,
    prepared: PreparedProgram<'_>,
    symbol: u32,
) -> Result<Vec<Vec<i64>>, Memory> {
    let mut directions = Vec::new(alloc);
    for (i, rule) in prepared.program.rules.iter().enumerate() {
        if let Some(rows) = prepared.rows.get(i) {
            if rule.source == symbol {
                for row in &rows.rows {
                    push_directions(alloc, &mut directions, rule.left, row)?;
                }
            }
        }
    }
    Ok(directions)
}

// Appends the coefficients of a row and their negations, where it reads places alone.
fn push_directions(
    alloc: Global,
    directions: &mut Vec<Vec<i64>>,
    places: u32,
    row: &Row,
) -> Result<(), Memory> {
    let mut coefs = Vec::new(alloc);
    let mut opposite = Vec::new(alloc);
    let mut is_constant = true;
    for (i, coef) in row.coefs.iter().enumerate() {
        if i < places as usize {
            let small = i64::try_from(*coef).unwrap_or(0);
            is_constant = is_constant && small == 0;
            coefs.push(small)?;
            opposite.push(small.saturating_neg())?;
        } else if *coef != 0 {
            return Ok(());
        }
    }
    if !is_constant {
        directions.push(coefs)?;
        directions.push(opposite)?;
    }
    Ok(())
}

// Single places, with either sign.
fn place_directions(alloc: Global, arity: u32) -> Result<Vec<Vec<i64>>, Memory> {
    let mut directions = Vec::new(alloc);
    for place in 0..arity.min(PLACE_LIMIT) {
        for sign in [1, -1] {
            directions.push(direction(alloc, arity, (place, sign), (place, sign))?)?;
        }
    }
    Ok(directions)
}

// Sums and differences of two places, with either sign.
fn pair_directions(alloc: Global, arity: u32) -> Result<Vec<Vec<i64>>, Memory> {
    let mut directions = Vec::new(alloc);
    let places = arity.min(PAIR_LIMIT);
    for first in 0..places {
        for second in 0..first {
            for signs in [(1, -1), (-1, 1), (1, 1), (-1, -1)] {
                let coefs = direction(alloc, arity, (first, signs.0), (second, signs.1))?;
                directions.push(coefs)?;
            }
        }
    }
    Ok(directions)
}

// The coefficients of a form that reads two places, or the same one twice.
fn direction(
    alloc: Global,
    arity: u32,
    one: (u32, i64),
    other: (u32, i64),
) -> Result<Vec<i64>, Memory> {
    let mut coefs = Vec::new(alloc);
    for place in 0..arity {
        if place == one.0 {
            coefs.push(one.1)?;
        } else if place == other.0 {
            coefs.push(other.1)?;
        } else {
            coefs.push(0)?;
        }
    }
    Ok(coefs)
}
