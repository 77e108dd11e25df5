//! Makes the cases by which a rule leads to the cells of its target, and multipliers that certify them.

use poly_terms::{Memory, Row};
use refined_programs::{Affine, Cases, Multipliers};
use std::alloc::Global;

/// The data from which the cases of a rule at a copy are made.
#[derive(Clone, Copy)]
pub(crate) struct CaseData<'a> {
    /// The number of the target's first copy.
    pub first: u32,
    /// The rows of the rule's guard and of the facts of its source.
    pub known: &'a [Row],
    /// The forms by whose signs the target is split, at the new values.
    pub tests: &'a [Affine],
}

/// The cases by the signs of all forms in order. A form that is constant is no test, and a sign that a known row
/// excludes leads nowhere.
///
/// # Errors
///
/// `Memory` where an allocation fails.
pub(crate) fn cases_by_signs(alloc: Global, data: CaseData<'_>) -> Result<Cases, Memory> {
    let cell = Cell {
        number: 0,
        weight: 1,
        tests: 0,
    };
    cases_by_remaining_signs(alloc, data, data.tests, cell)
}

// The signs chosen so far, as a number with a binary digit for each, 1 for below 0; the value of the next digit; and
// the number of forms that were tests.
#[derive(Clone, Copy)]
struct Cell {
    number: u32,
    weight: u32,
    tests: usize,
}

impl Cell {
    // The cell with one more sign, which `tests` tests chose (0 or 1).
    fn with(self, is_below: bool, tests: usize) -> Cell {
        let digit = if is_below { self.weight } else { 0 };
        Cell {
            number: self.number.saturating_add(digit),
            weight: self.weight.saturating_mul(2),
            tests: self.tests.saturating_add(tests),
        }
    }
}

// The cases by the signs of the remaining forms.
fn cases_by_remaining_signs(
    alloc: Global,
    data: CaseData<'_>,
    forms: &[Affine],
    cell: Cell,
) -> Result<Cases, Memory> {
    let Some((form, rest)) = forms.split_first() else {
        return case_of_cell(alloc, data, cell);
    };
    if is_constant(form) {
        return cases_by_remaining_signs(alloc, data, rest, cell.with(form.constant < 0, 0));
    }
    let yes = match refutation_by_one_row(alloc, data.known, form, cell.tests)? {
        Some(by) => Cases::Never { by },
        None => cases_by_remaining_signs(alloc, data, rest, cell.with(false, 1))?,
    };
    let no = match refutation_by_one_row(alloc, data.known, &negated(alloc, form)?, cell.tests)? {
        Some(by) => Cases::Never { by },
        None => cases_by_remaining_signs(alloc, data, rest, cell.with(true, 1))?,
    };
    Ok(Cases::If {
        test: copied(alloc, form)?,
        yes: Box::new(alloc, yes)?,
        no: Box::new(alloc, no)?,
    })
}

// Whether a form reads no variable.
fn is_constant(form: &Affine) -> bool {
    for coef in &form.coefs {
        if *coef != 0 {
            return false;
        }
    }
    true
}

/// A copy of a form.
///
/// # Errors
///
/// `Memory` where an allocation fails.
pub(crate) fn copied(alloc: Global, form: &Affine) -> Result<Affine, Memory> {
    Ok(Affine {
        coefs: form.coefs.as_slice().to_vec(alloc)?,
        constant: form.constant,
    })
}

/// The form that is at least 0 exactly if another one is below 0, over integers.
///
/// # Errors
///
/// `Memory` where an allocation fails.
pub(crate) fn negated(alloc: Global, form: &Affine) -> Result<Affine, Memory> {
    let mut coefs = Vec::new(alloc);
    for coef in &form.coefs {
        coefs.push(coef.saturating_neg())?;
    }
    Ok(Affine {
        coefs,
        constant: form.constant.saturating_neg().saturating_sub(1),
    })
}

// The end of a path at a cell. For each fact of its copy the row that the fact fails after the rule adds up to -1 with
// that of its test, or is -1 by itself if the form is constant.
fn case_of_cell(alloc: Global, data: CaseData<'_>, cell: Cell) -> Result<Cases, Memory> {
    let mut by = Vec::new(alloc);
    for (i, _) in data.tests.iter().enumerate() {
        by.push(multipliers_of(alloc, data, i)?)?;
    }
    Ok(Cases::To {
        copy: data.first.saturating_add(cell.number),
        by,
    })
}

// The multipliers for the fact at a position: 1 for the row of its test, if it is one, and 1 for the row that the fact
// fails.
fn multipliers_of(alloc: Global, data: CaseData<'_>, fact: usize) -> Result<Multipliers, Memory> {
    let mut numbers = Vec::new(alloc);
    for _ in data.known {
        numbers.push(0)?;
    }
    for (i, test) in data.tests.iter().enumerate() {
        if !is_constant(test) {
            numbers.push(if i == fact { 1 } else { 0 })?;
        }
    }
    numbers.push(1)?;
    Ok(Multipliers { numbers })
}

// Multipliers by which rows, `others` further rows and a form have no point, if one of the rows and the form add up to
// a constant below 0.
fn refutation_by_one_row(
    alloc: Global,
    rows: &[Row],
    form: &Affine,
    others: usize,
) -> Result<Option<Multipliers>, Memory> {
    for (i, row) in rows.iter().enumerate() {
        if contradict(row, form) {
            let mut numbers = Vec::new(alloc);
            for (j, _) in rows.iter().enumerate() {
                numbers.push(if j == i { 1 } else { 0 })?;
            }
            for _ in 0..others {
                numbers.push(0)?;
            }
            numbers.push(1)?;
            return Ok(Some(Multipliers { numbers }));
        }
    }
    Ok(None)
}

// Whether a row and a form have opposite coefficients, and constants that add up to less than 0.
fn contradict(row: &Row, form: &Affine) -> bool {
    for (i, coef) in row.coefs.iter().enumerate() {
        let other = match form.coefs.get(i) {
            Some(number) => i128::from(*number),
            None => 0,
        };
        if coef.saturating_add(other) != 0 {
            return false;
        }
    }
    row.constant.saturating_add(i128::from(form.constant)) < 0
}

/// Multipliers that show that the rows of a guard and facts have no point, if one row and one fact add up to a constant
/// below 0.
///
/// # Errors
///
/// `Memory` where an allocation fails.
pub(crate) fn fact_refutation(
    alloc: Global,
    rows: &[Row],
    facts: &[Affine],
) -> Result<Option<Multipliers>, Memory> {
    for (i, fact) in facts.iter().enumerate() {
        if let Some(mut by) = refutation_by_one_row(alloc, rows, fact, i)? {
            for (j, _) in facts.iter().enumerate() {
                if j > i {
                    by.numbers.push(0)?;
                }
            }
            return Ok(Some(by));
        }
    }
    Ok(None)
}
