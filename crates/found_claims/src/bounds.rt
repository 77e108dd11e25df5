//! The bounds of the lemmas that were found.

use poly_terms::Memory;
use potential_search::Findings;
use potential_types::copied_bound;
use signed_bounds::Signed;
use std::alloc::Global;

/// The number of a rule, and the numbers of its copies; both are counted from 1.
#[derive(Clone, Copy)]
pub(crate) struct RuleCopies<'a> {
    pub(crate) rule: u32,
    pub(crate) numbers: &'a [u32],
}

/// The bounds that lemmas state.
pub(crate) fn bounds_of(
    alloc: Global,
    findings: &Findings,
    cited: &[u32],
) -> Result<Vec<Signed>, Memory> {
    let mut bounds = Vec::new(alloc);
    for number in cited {
        if let Some(bound) = bound_of(findings, *number) {
            bounds.push(copied_bound(alloc, bound)?)?;
        }
    }
    Ok(bounds)
}

// The bound that a lemma states.
fn bound_of(findings: &Findings, number: u32) -> Option<&Signed> {
    let position = number.checked_sub(1)?;
    match findings.lemmas.get(position as usize) {
        Some(lemma) => Some(&lemma.bound),
        None => None,
    }
}
