//! Sections with further facts.

use crate::candidates::{PreparedProgram, candidates_at, constants_of};
use crate::paths::{certified_cases, rows_at};
use crate::rounds::{keep_inductive, rule_numbered, without_implied_facts};
use guard_prep::RuleRows;
use its_model::Program;
use poly_terms::Memory;
use refined_programs::{Branch, Cases, Multipliers, Section};
use std::alloc::Global;

/// The section with further facts at its copies, and with new certificates (`prepared_rules` has the rows of the rules,
/// in order). Of the forms that are tried those are facts that each rule keeps; those that others imply are left out. Its
/// first copy has no facts. A path that no values take under the facts leads nowhere.
///
/// # Errors
///
/// `Memory` where an allocation fails.
pub fn section_with_facts(
    alloc: Global,
    p: &Program,
    prepared_rules: &[RuleRows],
    section: Section,
) -> Result<Section, Memory> {
    let mut copies = section.copies;
    let constants = constants_of(alloc, prepared_rules)?;
    let prepared = PreparedProgram {
        program: p,
        rows: prepared_rules,
        constants: &constants,
    };
    for i in 1..copies.len() {
        let mut tried_forms = candidates_at(alloc, prepared, copies[i].over)?;
        copies[i].facts.append(&mut tried_forms)?;
    }
    keep_inductive(alloc, &mut copies, &section.branches, prepared_rules)?;
    for i in 1..copies.len() {
        copies[i].facts = without_implied_facts(alloc, &copies[i].facts)?;
    }
    keep_inductive(alloc, &mut copies, &section.branches, prepared_rules)?;
    let mut branches = Vec::new(alloc);
    for branch in &section.branches {
        let source = match copies.get(branch.source as usize) {
            Some(copy) => copy.facts.as_slice(),
            None => &[],
        };
        let cases = match rule_numbered(prepared_rules, branch.rule) {
            Some(rule) => {
                let rows = rows_at(alloc, rule, source)?;
                certified_cases(alloc, &copies, rule, &rows, &branch.cases)?
            }
            None => never_case(alloc),
        };
        branches.push(Branch {
            source: branch.source,
            rule: branch.rule,
            cases,
        })?;
    }
    Ok(Section { copies, branches })
}

// The case that leads nowhere, without multipliers.
fn never_case(alloc: Global) -> Cases {
    Cases::Never {
        by: Multipliers {
            numbers: Vec::new(alloc),
        },
    }
}
