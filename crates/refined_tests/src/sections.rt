//! Sections as a line writes them: copies and branches, each divided by `|`. A copy is a name and the number of a
//! symbol, and then, after commas, forms. A branch is the numbers of a copy and of a rule, and then an end, or a form,
//! `?` and two ends with `:` between them. An end is `to` and the number of a copy, or `never`, and then, after commas,
//! multipliers.

use its_model::Name;
use model::Memory;
use refined_programs::{Affine, Branch, Cases, Multipliers, Section, SymbolCopy};
use std::alloc::Global;

/// The section with these copies and branches.
pub(crate) fn section(alloc: Global, copies: &str, branches: &str) -> Result<Section, Memory> {
    Ok(Section {
        copies: parse_copies(alloc, copies)?,
        branches: parse_branches(alloc, branches)?,
    })
}

// Copies.
fn parse_copies(alloc: Global, text: &str) -> Result<Vec<SymbolCopy>, Memory> {
    let mut copies = Vec::new(alloc);
    for part in text.split('|') {
        if let Some((name, rest)) = part.trim().split_once(' ') {
            copies.push(copy(alloc, name, rest)?)?;
        }
    }
    Ok(copies)
}

// A copy, by its name, its symbol and its facts.
fn copy(alloc: Global, name: &str, rest: &str) -> Result<SymbolCopy, Memory> {
    let (over, facts) = rest.split_once(',').unwrap_or((rest, ""));
    Ok(SymbolCopy {
        name: Name {
            bytes: name.as_bytes().to_vec(alloc)?,
        },
        over: number(over),
        facts: forms(alloc, facts)?,
    })
}

// Forms that are divided by commas.
fn forms(alloc: Global, text: &str) -> Result<Vec<Affine>, Memory> {
    let mut found = Vec::new(alloc);
    for part in text.split(',') {
        if !part.trim().is_empty() {
            found.push(form(alloc, part)?)?;
        }
    }
    Ok(found)
}

// A form: its coefficients, and then its constant.
fn form(alloc: Global, text: &str) -> Result<Affine, Memory> {
    let mut coefs = Vec::new(alloc);
    let mut constant = 0;
    let mut is_first = true;
    for word in text.split_whitespace() {
        if !is_first {
            coefs.push(constant)?;
        }
        constant = word.parse::<i64>().unwrap_or(0);
        is_first = false;
    }
    Ok(Affine { coefs, constant })
}

// A number, 0 where there is none.
fn number(text: &str) -> u32 {
    text.trim().parse::<u32>().unwrap_or(0)
}

// Branches.
fn parse_branches(alloc: Global, text: &str) -> Result<Vec<Branch>, Memory> {
    let mut branches = Vec::new(alloc);
    for part in text.split('|') {
        if let Some((source, rest)) = part.trim().split_once(' ') {
            if let Some((rule, cases)) = rest.split_once(' ') {
                branches.push(Branch {
                    source: number(source),
                    rule: number(rule),
                    cases: parse_cases(alloc, cases)?,
                })?;
            }
        }
    }
    Ok(branches)
}

// An end, or a form and two ends.
fn parse_cases(alloc: Global, text: &str) -> Result<Cases, Memory> {
    let Some((test, ends)) = text.split_once('?') else {
        return end(alloc, text);
    };
    let (yes, no) = ends.split_once(':').unwrap_or((ends, ""));
    Ok(Cases::If {
        test: form(alloc, test)?,
        yes: Box::new(alloc, end(alloc, yes)?)?,
        no: Box::new(alloc, end(alloc, no)?)?,
    })
}

// An end.
fn end(alloc: Global, text: &str) -> Result<Cases, Memory> {
    let (goal, lists) = text.split_once(',').unwrap_or((text, ""));
    match goal.trim().split_once(' ') {
        Some((_, copy)) => Ok(Cases::To {
            copy: number(copy),
            by: parse_multipliers(alloc, lists)?,
        }),
        None => Ok(Cases::Never {
            by: multipliers(alloc, lists)?,
        }),
    }
}

// Lists of multipliers that are divided by commas.
fn parse_multipliers(alloc: Global, text: &str) -> Result<Vec<Multipliers>, Memory> {
    let mut lists = Vec::new(alloc);
    for part in text.split(',') {
        if !part.trim().is_empty() {
            lists.push(multipliers(alloc, part)?)?;
        }
    }
    Ok(lists)
}

// Multipliers.
fn multipliers(alloc: Global, text: &str) -> Result<Multipliers, Memory> {
    let mut numbers = Vec::new(alloc);
    for word in text.split_whitespace() {
        numbers.push(word.parse::<u64>().unwrap_or(0))?;
    }
    Ok(Multipliers { numbers })
}
