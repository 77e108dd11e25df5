//! Several functions for one goal: the least of their bounds.

use crate::search::{Candidate, Search};
use poly_terms::Memory;
use potential_questions::SearchError;
use potential_types::{Combination, SignedLemma, SignedNode, copied_bound};
use signed_bounds::Signed;
use simpler_bounds::{degree, judged_value};
use std::alloc::Global;

/// How many further functions may be taken.
const FURTHER: u32 = 2;

impl Search<'_> {
    /// The lemma of a candidate on how often a rule occurs, and up to two further functions where that lowers the sum
    /// over the judges by more than a twentieth each.
    pub(crate) fn with_variants(
        &mut self,
        rule: u32,
        best: Option<Candidate>,
    ) -> Result<Option<u32>, SearchError> {
        let Some(first) = self.keep(best)? else {
            return Ok(None);
        };
        let mut others = self.other_lemmas(rule, first)?;
        let mut number = first;
        for _ in 0..FURTHER {
            match self.with_one(number, &mut others)? {
                Some(next) => number = next,
                None => break,
            }
        }
        Ok(Some(number))
    }

    // The lemmas on a rule's time that are the best ones at one direction each, where a lemma's bound has degree 1 and
    // there are two start arguments or more.
    fn other_lemmas(&mut self, rule: u32, first: u32) -> Result<Vec<SignedLemma>, SearchError> {
        let mut others = Vec::new(self.alloc);
        let is_linear = self
            .lemmas
            .bound(first)
            .is_some_and(|bound| degree(bound) == 1);
        if is_linear && self.system.places_of(self.system.start) >= 2 {
            for direction in 0..self.directions.lists.len() {
                if let Some(lemma) = self.time_toward(rule, direction)? {
                    others.push(lemma)?;
                }
            }
        }
        Ok(others)
    }

    // The least of a lemma's bound and of that of another which lowers it most, if by more than a twentieth.
    fn with_one(
        &mut self,
        number: u32,
        others: &mut Vec<SignedLemma>,
    ) -> Result<Option<u32>, SearchError> {
        let Some(bound) = self.lemmas.bound(number) else {
            return Ok(None);
        };
        let bound = copied_bound(self.alloc, bound)?;
        let Some(index) = self.best_partner(&bound, others) else {
            return Ok(None);
        };
        if index >= others.len() {
            return Ok(None);
        }
        let other = others.swap_remove(index);
        let least = least_of(self.alloc, bound, copied_bound(self.alloc, &other.bound)?)?;
        let second = self.lemmas.push(other)?;
        let node = SignedNode::Combined(Combination::Least(number, second));
        Ok(Some(self.lemmas.push(SignedLemma { node, bound: least })?))
    }

    // The index of the lemma whose bound lowers another one most over the judges, if by more than a twentieth.
    fn best_partner(&self, bound: &Signed, others: &[SignedLemma]) -> Option<usize> {
        let value = self.judged(bound);
        let mut least = value.saturating_sub(value / 20);
        let mut best = None;
        for (index, other) in others.iter().enumerate() {
            let together = self.judged_least(bound, &other.bound);
            if together < least {
                least = together;
                best = Some(index);
            }
        }
        best
    }

    // The sum over the judges of the lesser of two bounds.
    fn judged_least(&self, bound: &Signed, other: &Signed) -> u128 {
        let mut sum = 0u128;
        for point in &self.judges.points {
            let value = judged_value(bound, point).min(judged_value(other, point));
            sum = sum.saturating_add(value);
        }
        sum
    }
}

// The least of two bounds.
fn least_of(alloc: Global, bound: Signed, other: Signed) -> Result<Signed, Memory> {
    let mut parts = Vec::new(alloc);
    parts.push(other)?;
    Ok(Signed::Min(Box::new(alloc, bound)?, parts))
}
