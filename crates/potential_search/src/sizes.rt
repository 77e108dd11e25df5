//! How large values are behind rules, from above and from below.

use crate::search::{LEVELS, Search};
use poly_terms::{Monomial, Poly};
use potential_questions::SearchError;
use std::alloc::Global;

/// Which side of a value is bounded.
#[derive(Clone, Copy, PartialEq, Eq)]
pub(crate) enum Side {
    Above,
    Below,
}

impl Search<'_> {
    /// The lemmas that bound each place behind each rule from a side: rule t's are at t - 1. A place whose new value
    /// has a degree over 2 has none.
    pub(crate) fn sizes(&mut self, side: Side) -> Result<Vec<Vec<Option<u32>>>, SearchError> {
        let mut all = Vec::new(self.alloc);
        for number in 1..self.system.rule_end {
            self.forget_failures();
            all.push(self.sizes_behind(number, side)?)?;
        }
        Ok(all)
    }

    // The lemmas that bound each place behind a rule from a side.
    fn sizes_behind(&mut self, number: u32, side: Side) -> Result<Vec<Option<u32>>, SearchError> {
        let mut found = Vec::new(self.alloc);
        let system = self.system;
        let Some(rule) = system.rule(number) else {
            return Ok(found);
        };
        for update in &rule.updates {
            let lemma = match sided(self.alloc, update, side)? {
                Some(form) => self.peak(number, &form, LEVELS)?,
                None => None,
            };
            found.push(lemma)?;
        }
        Ok(found)
    }
}

// A polynomial of degree at most 2, or its opposite; none where the degree is greater, or a number is beyond 128 bits.
fn sided(alloc: Global, update: &Poly, side: Side) -> Result<Option<Poly>, SearchError> {
    let mut terms = Vec::new(alloc);
    for term in &update.terms {
        match on_side(term.coef, side) {
            Some(coef) if term.vars.len() <= 2 => terms.push(Monomial {
                coef,
                vars: term.vars.as_slice().to_vec(alloc)?,
            })?,
            _ => return Ok(None),
        }
    }
    Ok(Some(Poly { terms }))
}

// A number, or its opposite.
fn on_side(number: i128, side: Side) -> Option<i128> {
    match side {
        Side::Above => Some(number),
        Side::Below => number.checked_neg(),
    }
}
