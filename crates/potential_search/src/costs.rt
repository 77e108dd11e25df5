//! What the steps of rules cost.

use crate::lemmas::once;
use crate::search::{LEVELS, Search};
use its_model::{Program, Rule};
use poly_terms::{Memory, Poly, PolyError, expand};
use potential_questions::SearchError;
use potential_types::{Charge, copied_poly};
use std::alloc::Global;

/// The written cost of each rule of a program, rule t's at t - 1; none where no cost is written, so that a step costs
/// 1.
///
/// # Errors
///
/// `Range` where a written cost can't be expanded; `Memory` where an allocation fails.
pub(crate) fn written_costs(
    alloc: Global,
    program: &Program,
) -> Result<Vec<Option<Poly>>, SearchError> {
    let mut costs = Vec::new(alloc);
    for rule in &program.rules {
        costs.push(written_cost(alloc, rule)?)?;
    }
    Ok(costs)
}

// The written cost of a rule as a polynomial.
fn written_cost(alloc: Global, rule: &Rule) -> Result<Option<Poly>, SearchError> {
    match &rule.cost {
        None => Ok(None),
        Some(cost) => match expand(alloc, cost) {
            Ok(form) => Ok(Some(form)),
            Err(PolyError::Memory) => Err(SearchError::Memory),
            Err(_) => Err(SearchError::Range),
        },
    }
}

impl Search<'_> {
    /// The lemmas on what the steps of each rule with a written cost cost together, rule t's at t - 1.
    pub(crate) fn find_costs(&mut self) -> Result<Vec<Option<u32>>, SearchError> {
        let mut found = Vec::new(self.alloc);
        for rule in 1..self.system.rule_end {
            self.forget_failures();
            found.push(self.written_cost_lemma(rule)?)?;
        }
        Ok(found)
    }

    // The lemma on what the steps of a rule cost together, where a cost is written.
    fn written_cost_lemma(&mut self, rule: u32) -> Result<Option<u32>, SearchError> {
        match self.cost_form(rule)? {
            Some(form) => self.sum(rule, &form, LEVELS),
            None => Ok(None),
        }
    }

    /// The lemma on what the steps of a rule cost together: that on how often it occurs, where no cost is written.
    pub(crate) fn cost_lemma(&mut self, rule: u32) -> Result<Option<u32>, SearchError> {
        match self.cost_form(rule)? {
            Some(form) => self.sum(rule, &form, LEVELS),
            None => Ok(self.lemmas.time(rule)),
        }
    }

    /// The charge of what each step by a rule costs.
    pub(crate) fn cost_charge(&self, rule: u32) -> Result<Charge, Memory> {
        match self.cost_form(rule)? {
            Some(form) => Ok(Charge { rule, form }),
            None => once(self.alloc, rule),
        }
    }

    // The written cost of a rule.
    fn cost_form(&self, rule: u32) -> Result<Option<Poly>, Memory> {
        match self.written_form(rule) {
            Some(form) => Ok(Some(copied_poly(self.alloc, form)?)),
            None => Ok(None),
        }
    }

    // The written cost of a rule, where it is.
    fn written_form(&self, rule: u32) -> Option<&Poly> {
        let before = rule.checked_sub(1)?;
        match self.costs.get(before as usize) {
            Some(Some(form)) => Some(form),
            _ => None,
        }
    }
}
