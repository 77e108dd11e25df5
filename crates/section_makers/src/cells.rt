//! Splits symbols by the signs of forms that guards compare: a cell of a symbol is a choice of a sign for each form.

use crate::forms::{PreparedProgram, SymbolForms, at_new_values, forms_of_symbols};
use crate::names::{copy_name, saturating_u32};
use crate::sign_cases::{CaseData, cases_by_signs, copied, fact_refutation, negated};
use guard_prep::RuleRows;
use its_model::{Program, Rule};
use poly_terms::{Memory, Row};
use refined_programs::{Affine, Branch, Cases, Section, SymbolCopy};
use std::alloc::Global;

/// The section with a copy of the start symbol, and of each other symbol one for each choice of signs of at most two
/// forms, which the guards of the rules that leave the symbol compare with 0 (`prepared_rules` has the rows of the
/// rules, in order). The facts of a copy say that its forms have its signs. A rule leads to the copy of its target by
/// whether the target's forms are at least 0 at the new values, and nowhere from a copy that has a fact against one of
/// its rows.
///
/// # Errors
///
/// `Memory` where an allocation fails.
pub fn section_by_guards(
    alloc: Global,
    p: &Program,
    prepared_rules: &[RuleRows],
) -> Result<Section, Memory> {
    let prepared = PreparedProgram {
        program: p,
        rows: prepared_rules,
    };
    let forms = forms_of_symbols(alloc, prepared)?;
    let firsts = first_copies(alloc, p, &forms)?;
    let split = Split {
        prepared,
        forms: &forms,
        firsts: &firsts,
    };
    let copies = all_copies(alloc, split)?;
    let mut branches = Vec::new(alloc);
    for (i, copy) in copies.iter().enumerate() {
        push_branches(alloc, &mut branches, split, copy, saturating_u32(i))?;
    }
    Ok(Section { copies, branches })
}

// A program, the forms by which its symbols are split, and the first copy of each symbol.
#[derive(Clone, Copy)]
struct Split<'a> {
    prepared: PreparedProgram<'a>,
    forms: &'a [SymbolForms],
    firsts: &'a [u32],
}

// The number of the first copy of each symbol: the start symbol has the first one, and those of the others follow.
fn first_copies(alloc: Global, p: &Program, forms: &[SymbolForms]) -> Result<Vec<u32>, Memory> {
    let mut firsts = Vec::new(alloc);
    let mut next: u32 = 1;
    for (i, symbol) in forms.iter().enumerate() {
        if saturating_u32(i) == p.start {
            firsts.push(0)?;
        } else {
            firsts.push(next)?;
            next = next.saturating_add(cell_count(&symbol.forms));
        }
    }
    Ok(firsts)
}

// The number of choices of signs of these forms.
fn cell_count(forms: &[Affine]) -> u32 {
    let mut count: u32 = 1;
    for _ in forms {
        count = count.saturating_mul(2);
    }
    count
}

// The copies of all symbols, that of the start symbol first.
fn all_copies(alloc: Global, split: Split<'_>) -> Result<Vec<SymbolCopy>, Memory> {
    let mut copies = Vec::new(alloc);
    let start = split.prepared.program.start;
    push_copy(alloc, &mut copies, split, start, 0)?;
    for (i, symbol) in split.forms.iter().enumerate() {
        if saturating_u32(i) != start {
            for cell in 0..cell_count(&symbol.forms) {
                push_copy(alloc, &mut copies, split, saturating_u32(i), cell)?;
            }
        }
    }
    Ok(copies)
}

// Appends the copy of a symbol for a cell.
fn push_copy(
    alloc: Global,
    copies: &mut Vec<SymbolCopy>,
    split: Split<'_>,
    symbol: u32,
    cell: u32,
) -> Result<(), Memory> {
    let name = copy_name(alloc, split.prepared.program, symbol, copies.len())?;
    let mut facts = Vec::new(alloc);
    let mut signs = cell;
    if let Some(found) = split.forms.get(symbol as usize) {
        for form in &found.forms {
            facts.push(if signs % 2 == 1 {
                negated(alloc, form)?
            } else {
                copied(alloc, form)?
            })?;
            signs /= 2;
        }
    }
    copies.push(SymbolCopy {
        name,
        over: symbol,
        facts,
    })?;
    Ok(())
}

// Appends the branches of the rules that leave a copy's symbol.
fn push_branches(
    alloc: Global,
    branches: &mut Vec<Branch>,
    split: Split<'_>,
    copy: &SymbolCopy,
    source: u32,
) -> Result<(), Memory> {
    for (i, rule) in split.prepared.program.rules.iter().enumerate() {
        if rule.source == copy.over {
            if let Some(rows) = split.prepared.rows.get(i) {
                let cases = cases_of(alloc, split, copy, rule, rows)?;
                branches.push(Branch {
                    source,
                    rule: saturating_u32(i).saturating_add(1),
                    cases,
                })?;
            }
        }
    }
    Ok(())
}

// The cases by which a rule leads from a copy.
fn cases_of(
    alloc: Global,
    split: Split<'_>,
    copy: &SymbolCopy,
    rule: &Rule,
    rows: &RuleRows,
) -> Result<Cases, Memory> {
    if let Some(by) = fact_refutation(alloc, &rows.rows, &copy.facts)? {
        return Ok(Cases::Never { by });
    }
    let tests = tests_of(alloc, split, rule, rows)?;
    let first = match split.firsts.get(rule.target as usize) {
        Some(number) => *number,
        None => u32::MAX,
    };
    let known = known_rows(alloc, &rows.rows, &copy.facts)?;
    let data = CaseData {
        first,
        known: &known,
        tests: &tests,
    };
    cases_by_signs(alloc, data)
}

// The rows of a guard, and rows for the facts.
fn known_rows(alloc: Global, rows: &[Row], facts: &[Affine]) -> Result<Vec<Row>, Memory> {
    let mut known = Vec::new(alloc);
    for row in rows {
        known.push(Row {
            coefs: row.coefs.as_slice().to_vec(alloc)?,
            constant: row.constant,
        })?;
    }
    for fact in facts {
        let mut coefs = Vec::new(alloc);
        for coef in &fact.coefs {
            coefs.push(i128::from(*coef))?;
        }
        known.push(Row {
            coefs,
            constant: i128::from(fact.constant),
        })?;
    }
    Ok(known)
}

// The forms of a rule's target at the new values.
fn tests_of(
    alloc: Global,
    split: Split<'_>,
    rule: &Rule,
    rows: &RuleRows,
) -> Result<Vec<Affine>, Memory> {
    let mut tests = Vec::new(alloc);
    if let Some(target) = split.forms.get(rule.target as usize) {
        for form in &target.forms {
            if let Some(test) = at_new_values(alloc, rule, rows, form)? {
                tests.push(test)?;
            }
        }
    }
    Ok(tests)
}
