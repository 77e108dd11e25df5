//! Paths through the cases of a rule: the rows along them, and what they certify.

use crate::linear_programs::{Fraction, least_sum, refutation};
use crate::rows::{
    at_new_values, copied_form, copied_rows, negated_row, push_form, push_negated, push_tightened,
};
use guard_prep::RuleRows;
use poly_terms::{Memory, Row};
use refined_programs::{Affine, Cases, Multipliers, SymbolCopy};
use std::alloc::Global;

/// The rows of a rule at a copy: those of its guard, and then those of the copy's facts.
///
/// # Errors
///
/// `Memory` where an allocation fails.
pub(crate) fn rows_at(
    alloc: Global,
    rule: &RuleRows,
    facts: &[Affine],
) -> Result<Vec<Row>, Memory> {
    let mut rows = copied_rows(alloc, &rule.rows)?;
    for fact in facts {
        push_form(alloc, &mut rows, fact)?;
    }
    Ok(rows)
}

// The rows after a test that holds.
fn rows_if_true(alloc: Global, rows: &[Row], test: &Affine) -> Result<Vec<Row>, Memory> {
    let mut more = copied_rows(alloc, rows)?;
    push_form(alloc, &mut more, test)?;
    Ok(more)
}

// The rows after a test that fails.
fn rows_if_false(alloc: Global, rows: &[Row], test: &Affine) -> Result<Vec<Row>, Memory> {
    let mut more = copied_rows(alloc, rows)?;
    push_negated(alloc, &mut more, test)?;
    Ok(more)
}

/// Multipliers of the rows along a path and of the negated fact that show that the fact holds after a rule.
///
/// # Errors
///
/// `Memory` where an allocation fails.
pub(crate) fn proof_of_fact(
    alloc: Global,
    rule: &RuleRows,
    rows: &[Row],
    fact: &Affine,
) -> Result<Option<Multipliers>, Memory> {
    match at_new_values(alloc, rule, fact)? {
        None => refutation(alloc, rows),
        Some(value) => {
            let mut more = copied_rows(alloc, rows)?;
            push_tightened(alloc, &mut more, &negated_row(alloc, &value)?)?;
            refutation(alloc, &more)
        }
    }
}

/// Drops the facts of the targets of cases that aren't proved along some path, where `kept` has the facts of each copy,
/// and marks the copies that lose some.
///
/// # Errors
///
/// `Memory` where an allocation fails.
pub(crate) fn drop_unproved(
    alloc: Global,
    kept: &mut [SymbolCopy],
    changed: &mut Vec<bool>,
    rule: &RuleRows,
    rows: &[Row],
    cases: &Cases,
) -> Result<(), Memory> {
    match cases {
        Cases::Never { by: _ } => Ok(()),
        Cases::To { copy, by: _ } => match kept.get_mut(*copy as usize) {
            None => Ok(()),
            Some(target) => {
                if drop_unproved_at(alloc, target, rule, rows)? {
                    mark_copy(changed, *copy);
                }
                Ok(())
            }
        },
        Cases::If { test, yes, no } => {
            let held = rows_if_true(alloc, rows, test)?;
            drop_unproved(alloc, kept, changed, rule, &held, yes)?;
            let failed = rows_if_false(alloc, rows, test)?;
            drop_unproved(alloc, kept, changed, rule, &failed, no)
        }
    }
}

// Marks a copy.
fn mark_copy(marks: &mut Vec<bool>, copy: u32) {
    if let Some(mark) = marks.get_mut(copy as usize) {
        *mark = true;
    }
}

// Drops the facts of a copy that aren't proved after a rule, and gives whether there was one. If the rows have no point,
// all are proved.
fn drop_unproved_at(
    alloc: Global,
    target: &mut SymbolCopy,
    rule: &RuleRows,
    rows: &[Row],
) -> Result<bool, Memory> {
    if target.facts.is_empty() || refutation(alloc, rows)?.is_some() {
        return Ok(false);
    }
    let mut facts: Vec<Affine> = Vec::new(alloc);
    let mut is_changed = false;
    let mut lower_bound = LowerBound {
        coefs: Vec::new(alloc),
        least: None,
    };
    for fact in &target.facts {
        if lower_bound.coefs != fact.coefs {
            lower_bound = lower_bound_of(alloc, rule, rows, fact)?;
        }
        if lower_bound.proves(alloc, rule, fact)? {
            facts.push(copied_form(alloc, fact)?)?;
        } else {
            is_changed = true;
        }
    }
    target.facts = facts;
    Ok(is_changed)
}

// The least value after a rule, along a path, of forms with these coefficients.
#[derive(Drop)]
struct LowerBound {
    coefs: Vec<i64>,
    least: Option<Fraction>,
}

impl LowerBound {
    // Whether a form with these coefficients isn't negative after a rule.
    fn proves(&self, alloc: Global, rule: &RuleRows, fact: &Affine) -> Result<bool, Memory> {
        let Some(least) = self.least else {
            return Ok(false);
        };
        match at_new_values(alloc, rule, fact)? {
            Some(value) => Ok(least.is_below_successor_of(value.constant)),
            None => Ok(false),
        }
    }
}

// The least value after a rule of forms with the coefficients of a fact, where the rows along a path hold.
fn lower_bound_of(
    alloc: Global,
    rule: &RuleRows,
    rows: &[Row],
    fact: &Affine,
) -> Result<LowerBound, Memory> {
    let least = match at_new_values(alloc, rule, fact)? {
        Some(value) => least_sum(alloc, rows, &value)?,
        None => None,
    };
    Ok(LowerBound {
        coefs: fact.coefs.as_slice().to_vec(alloc)?,
        least,
    })
}

/// The cases with multipliers for the facts of the copies that they lead to. A path that no values take leads nowhere.
///
/// # Errors
///
/// `Memory` where an allocation fails.
pub(crate) fn certified_cases(
    alloc: Global,
    copies: &[SymbolCopy],
    rule: &RuleRows,
    rows: &[Row],
    cases: &Cases,
) -> Result<Cases, Memory> {
    if let Some(by) = refutation(alloc, rows)? {
        return Ok(Cases::Never { by });
    }
    match cases {
        Cases::Never { by: _ } => Ok(Cases::Never {
            by: Multipliers {
                numbers: Vec::new(alloc),
            },
        }),
        Cases::To { copy, by: _ } => {
            let mut by = Vec::new(alloc);
            if let Some(target) = copies.get(*copy as usize) {
                for fact in &target.facts {
                    by.push(multipliers_for(alloc, rule, rows, fact)?)?;
                }
            }
            Ok(Cases::To { copy: *copy, by })
        }
        Cases::If { test, yes, no } => {
            let yes = certified_cases(alloc, copies, rule, &rows_if_true(alloc, rows, test)?, yes)?;
            let no = certified_cases(alloc, copies, rule, &rows_if_false(alloc, rows, test)?, no)?;
            Ok(Cases::If {
                test: copied_form(alloc, test)?,
                yes: Box::new(alloc, yes)?,
                no: Box::new(alloc, no)?,
            })
        }
    }
}

// The multipliers of a fact after a rule, none where it isn't shown.
fn multipliers_for(
    alloc: Global,
    rule: &RuleRows,
    rows: &[Row],
    fact: &Affine,
) -> Result<Multipliers, Memory> {
    match proof_of_fact(alloc, rule, rows, fact)? {
        Some(by) => Ok(by),
        None => Ok(Multipliers {
            numbers: Vec::new(alloc),
        }),
    }
}
