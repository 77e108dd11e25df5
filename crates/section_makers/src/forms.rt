//! Forms over the places of symbols that the guards of the rules that leave them compare with 0.

use crate::names::saturating_u32;
use crate::sign_cases::copied;
use guard_prep::RuleRows;
use its_model::{Program, Rule};
use poly_terms::{Memory, Row};
use refined_programs::Affine;
use std::alloc::Global;

// The maximum number of forms by which a symbol is split.
const FORM_LIMIT: usize = 2;

// How often growth is taken: 2 is the growth of a form, and the growth of that.
const GROWTH_DEPTH: u32 = 2;

/// Forms over the places of a symbol.
#[derive(Debug, PartialEq, Eq, Drop)]
pub(crate) struct SymbolForms {
    pub forms: Vec<Affine>,
}

/// A program with the rows of its rules, in order.
#[derive(Clone, Copy)]
pub(crate) struct PreparedProgram<'a> {
    pub program: &'a Program,
    pub rows: &'a [RuleRows],
}

/// The forms by whose signs symbols are split, for each symbol in order. For a symbol other than the start symbol they
/// are the first two rows over places alone among the rows of the rules that leave it, and after them by how much such
/// a row grows in a step by its rule, if that leads back to the symbol, and by how much this grows. Left out are a row
/// that each of these rules has, a form that is the same as an earlier one or its negation, and one whose value after
/// some rule that leads to the symbol isn't affine.
///
/// # Errors
///
/// `Memory` where an allocation fails.
pub(crate) fn forms_of_symbols(
    alloc: Global,
    prepared: PreparedProgram<'_>,
) -> Result<Vec<SymbolForms>, Memory> {
    let mut found = Vec::new(alloc);
    for (i, _) in prepared.program.symbols.iter().enumerate() {
        let forms = forms_at(alloc, prepared, saturating_u32(i))?;
        found.push(SymbolForms { forms })?;
    }
    Ok(found)
}

// The forms by whose signs a symbol is split.
fn forms_at(
    alloc: Global,
    prepared: PreparedProgram<'_>,
    symbol: u32,
) -> Result<Vec<Affine>, Memory> {
    let mut forms = Vec::new(alloc);
    if symbol == prepared.program.start {
        return Ok(forms);
    }
    for (i, rule) in prepared.program.rules.iter().enumerate() {
        if let Some(rows) = prepared.rows.get(i) {
            if rule.source == symbol {
                push_rows(alloc, &mut forms, prepared, rule, &rows.rows)?;
            }
        }
    }
    push_all_growths(alloc, &mut forms, prepared, symbol)?;
    Ok(forms)
}

// Appends by how much the rows of the rules from a symbol to itself grow.
fn push_all_growths(
    alloc: Global,
    forms: &mut Vec<Affine>,
    prepared: PreparedProgram<'_>,
    symbol: u32,
) -> Result<(), Memory> {
    for (i, rule) in prepared.program.rules.iter().enumerate() {
        if let Some(rows) = prepared.rows.get(i) {
            if rule.source == symbol && rule.target == symbol {
                for row in &rows.rows {
                    push_growths(alloc, forms, prepared, (rule, rows), row)?;
                }
            }
        }
    }
    Ok(())
}

// Appends by how much a row grows in a step by its rule, and by how much that grows.
fn push_growths(
    alloc: Global,
    forms: &mut Vec<Affine>,
    prepared: PreparedProgram<'_>,
    prepared_rule: (&Rule, &RuleRows),
    row: &Row,
) -> Result<(), Memory> {
    let (rule, rows) = prepared_rule;
    let Some(first) = form_of(alloc, rule.left, row)? else {
        return Ok(());
    };
    let mut form = first;
    for _ in 0..GROWTH_DEPTH {
        let Some(grown) = growth(alloc, rule, rows, &form)? else {
            return Ok(());
        };
        let is_new = forms.len() < FORM_LIMIT && !is_listed(forms, &grown);
        if is_new && separates_rules(alloc, prepared, rule.source, &grown)? {
            forms.push(copied(alloc, &grown)?)?;
        }
        form = grown;
    }
    Ok(())
}

// By how much a form grows in a step by a rule, if that is a form over the places that reads at least one.
fn growth(
    alloc: Global,
    rule: &Rule,
    rows: &RuleRows,
    form: &Affine,
) -> Result<Option<Affine>, Memory> {
    let Some(after) = at_new_values(alloc, rule, rows, form)? else {
        return Ok(None);
    };
    let mut coefs = Vec::new(alloc);
    for (i, coef) in after.coefs.iter().enumerate() {
        let before = form.coefs.get(i).copied().unwrap_or(0);
        coefs.push(i128::from(coef.saturating_sub(before)))?;
    }
    let row = Row {
        coefs,
        constant: i128::from(after.constant.saturating_sub(form.constant)),
    };
    form_of(alloc, rule.left, &row)
}

// Appends the forms of the rows of a rule.
fn push_rows(
    alloc: Global,
    forms: &mut Vec<Affine>,
    prepared: PreparedProgram<'_>,
    rule: &Rule,
    rows: &[Row],
) -> Result<(), Memory> {
    for row in rows {
        if let Some(form) = form_of(alloc, rule.left, row)? {
            let is_new = forms.len() < FORM_LIMIT && !is_listed(forms, &form);
            if is_new && separates_rules(alloc, prepared, rule.source, &form)? {
                forms.push(form)?;
            }
        }
    }
    Ok(())
}

// A row as a form over the places, if it reads at least one place and nothing else, and its numbers have 64 bits.
fn form_of(alloc: Global, places: u32, row: &Row) -> Result<Option<Affine>, Memory> {
    let mut coefs = Vec::new(alloc);
    let mut is_constant = true;
    for (i, coef) in row.coefs.iter().enumerate() {
        if i < places as usize {
            let Ok(small) = i64::try_from(*coef) else {
                return Ok(None);
            };
            is_constant = is_constant && small == 0;
            coefs.push(small)?;
        } else if *coef != 0 {
            return Ok(None);
        }
    }
    let Ok(constant) = i64::try_from(row.constant) else {
        return Ok(None);
    };
    if is_constant {
        return Ok(None);
    }
    Ok(Some(Affine { coefs, constant }))
}

// Whether a form, or its negation over whole numbers, is one of these.
fn is_listed(forms: &[Affine], form: &Affine) -> bool {
    for other in forms {
        if other == form || is_negation(other, form) {
            return true;
        }
    }
    false
}

// Whether one form is at least 0 exactly if the other is below 0.
fn is_negation(form: &Affine, other: &Affine) -> bool {
    form.constant.saturating_add(other.constant) == -1 && are_opposite(&form.coefs, &other.coefs)
}

// Whether coefficients are the negations of others.
fn are_opposite(coefs: &[i64], others: &[i64]) -> bool {
    for (i, coef) in coefs.iter().enumerate() {
        match others.get(i) {
            Some(other) if coef.saturating_add(*other) == 0 => {}
            _ => return false,
        }
    }
    coefs.len() == others.len()
}

// Whether a form tells apart rules that leave a symbol, and has an affine value after each rule that leads there.
fn separates_rules(
    alloc: Global,
    prepared: PreparedProgram<'_>,
    symbol: u32,
    form: &Affine,
) -> Result<bool, Memory> {
    let mut is_shared = true;
    for (i, rule) in prepared.program.rules.iter().enumerate() {
        let Some(rows) = prepared.rows.get(i) else {
            return Ok(false);
        };
        if rule.source == symbol && !has_row(&rows.rows, form) {
            is_shared = false;
        }
        if rule.target == symbol && at_new_values(alloc, rule, rows, form)?.is_none() {
            return Ok(false);
        }
    }
    Ok(!is_shared)
}

// Whether a form is one of these rows.
fn has_row(rows: &[Row], form: &Affine) -> bool {
    for row in rows {
        if row.constant == i128::from(form.constant) && has_coefs(row, &form.coefs) {
            return true;
        }
    }
    false
}

// Whether a row has these coefficients, and 0 for the variables after them.
fn has_coefs(row: &Row, coefs: &[i64]) -> bool {
    for (i, coef) in row.coefs.iter().enumerate() {
        let expected = match coefs.get(i) {
            Some(number) => i128::from(*number),
            None => 0,
        };
        if *coef != expected {
            return false;
        }
    }
    true
}

/// A form at the values after a rule, over the rule's variables; none if it isn't affine, or has a number of more than
/// 64 bits.
///
/// # Errors
///
/// `Memory` where an allocation fails.
pub(crate) fn at_new_values(
    alloc: Global,
    rule: &Rule,
    rows: &RuleRows,
    form: &Affine,
) -> Result<Option<Affine>, Memory> {
    if reads_nonlinear(rows, form) {
        return Ok(None);
    }
    let mut coefs = Vec::new(alloc);
    for variable in 0..rule.left.saturating_add(rule.free) {
        let Ok(coef) = i64::try_from(new_coefficient(rows, form, variable)) else {
            return Ok(None);
        };
        coefs.push(coef)?;
    }
    let Ok(constant) = i64::try_from(new_constant(rows, form)) else {
        return Ok(None);
    };
    Ok(Some(Affine { coefs, constant }))
}

// Whether a form reads a place whose new value isn't affine.
fn reads_nonlinear(rows: &RuleRows, form: &Affine) -> bool {
    for (i, coef) in form.coefs.iter().enumerate() {
        let is_nonlinear = match rows.nonlinear.get(i) {
            Some(found) => *found,
            None => true,
        };
        if *coef != 0 && is_nonlinear {
            return true;
        }
    }
    false
}

// The coefficient of a variable in a form at the new values.
fn new_coefficient(rows: &RuleRows, form: &Affine, variable: u32) -> i128 {
    let mut sum: i128 = 0;
    for (i, coef) in form.coefs.iter().enumerate() {
        if let Some(row) = rows.new_values.get(i) {
            if let Some(number) = row.coefs.get(variable as usize) {
                sum = sum.saturating_add(number.saturating_mul(i128::from(*coef)));
            }
        }
    }
    sum
}

// The constant of a form at the new values.
fn new_constant(rows: &RuleRows, form: &Affine) -> i128 {
    let mut sum = i128::from(form.constant);
    for (i, coef) in form.coefs.iter().enumerate() {
        if let Some(row) = rows.new_values.get(i) {
            sum = sum.saturating_add(row.constant.saturating_mul(i128::from(*coef)));
        }
    }
    sum
}
