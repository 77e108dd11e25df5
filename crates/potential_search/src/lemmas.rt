//! The lemmas that were found, and what they state.

use crate::known::Known;
use poly_terms::{Memory, Poly};
use potential_questions::SearchError;
use potential_types::{
    Charge, Combination, Move, RowNode, SignedLemma, SignedNode, copied_bound, copied_poly,
    one_poly,
};
use signed_bounds::Signed;
use signed_within::is_within;
use simpler_bounds::{quotient, simplified};
use std::alloc::Global;

/// The lemmas in order, and which of them bounds what.
#[derive(Drop)]
pub(crate) struct Lemmas {
    pub(crate) list: Vec<SignedLemma>,
    /// The lemma on how often rule t occurs, at t - 1.
    pub(crate) times: Vec<Option<u32>>,
    pub(crate) sums: Known,
    pub(crate) peaks: Known,
}

/// The lemmas on a rule's time and on a polynomial's peak at its steps.
#[derive(Clone, Copy)]
pub(crate) struct TimeAndPeak {
    pub(crate) time: u32,
    pub(crate) peak: u32,
}

impl Lemmas {
    /// No lemma is there yet.
    pub(crate) fn new(alloc: Global, rules: usize) -> Result<Lemmas, Memory> {
        Ok(Lemmas {
            list: Vec::new(alloc),
            times: vec![in alloc; None; rules]?,
            sums: Known::new(alloc, rules)?,
            peaks: Known::new(alloc, rules)?,
        })
    }

    /// Appends a lemma, and gives its number, from 1.
    pub(crate) fn push(&mut self, lemma: SignedLemma) -> Result<u32, SearchError> {
        self.list.push(lemma)?;
        u32::try_from(self.list.len()).map_err(|_| SearchError::Range)
    }

    /// The bound that the lemma with a number states.
    pub(crate) fn bound(&self, number: u32) -> Option<&Signed> {
        let before = number.checked_sub(1)?;
        self.list.get(before as usize).map(|lemma| &lemma.bound)
    }

    /// The lemma on how often a rule occurs.
    pub(crate) fn time(&self, rule: u32) -> Option<u32> {
        let before = rule.checked_sub(1)?;
        self.times.get(before as usize).copied().flatten()
    }

    /// Says which lemma bounds how often a rule occurs.
    pub(crate) fn set_time(&mut self, rule: u32, lemma: u32) {
        if let Some(before) = rule.checked_sub(1) {
            if let Some(time) = self.times.get_mut(before as usize) {
                *time = Some(lemma);
            }
        }
    }

    /// The lemma that bounds a polynomial at the steps of a rule by a number: it is the number.
    pub(crate) fn push_row(
        &mut self,
        alloc: Global,
        rule: u32,
        form: &Poly,
        number: u64,
    ) -> Result<u32, SearchError> {
        self.push(SignedLemma {
            node: SignedNode::Row(RowNode {
                rule,
                form: copied_poly(alloc, form)?,
                number,
                certificate: Vec::new(alloc),
            }),
            bound: Signed::Const(u128::from(number)),
        })
    }

    /// The lemma that bounds the sum of a polynomial by how often the rule occurs and by the polynomial's peak.
    pub(crate) fn push_times(
        &mut self,
        alloc: Global,
        rule: u32,
        form: &Poly,
        cited: TimeAndPeak,
    ) -> Result<Option<u32>, SearchError> {
        let TimeAndPeak { time, peak } = cited;
        let (Some(often), Some(high)) = (self.bound(time), self.bound(peak)) else {
            return Ok(None);
        };
        let mut factors = Vec::new(alloc);
        factors.push(copied_bound(alloc, often)?)?;
        factors.push(copied_bound(alloc, high)?)?;
        let bound = stated(alloc, 1, Signed::Prod(factors))?;
        let node = SignedNode::Combined(Combination::Times {
            rule,
            form: copied_poly(alloc, form)?,
            time,
            peak,
        });
        Ok(Some(self.push(SignedLemma { node, bound })?))
    }

    /// The lemma that adds two sums.
    pub(crate) fn push_add(
        &mut self,
        alloc: Global,
        first: u32,
        second: u32,
    ) -> Result<Option<u32>, SearchError> {
        let (Some(a), Some(b)) = (self.bound(first), self.bound(second)) else {
            return Ok(None);
        };
        let mut parts = Vec::new(alloc);
        parts.push(copied_bound(alloc, a)?)?;
        parts.push(copied_bound(alloc, b)?)?;
        let bound = stated(alloc, 1, Signed::Sum(parts))?;
        let node = SignedNode::Combined(Combination::Add(first, second));
        Ok(Some(self.push(SignedLemma { node, bound })?))
    }

    /// The bounds that moves cite, behind a first one.
    pub(crate) fn with_cited(
        &self,
        alloc: Global,
        first: Signed,
        moves: &[Move],
    ) -> Result<Signed, Memory> {
        let mut parts = Vec::new(alloc);
        parts.push(first)?;
        for step in moves {
            if let Some(bound) = self.cited_bound(step) {
                parts.push(copied_bound(alloc, bound)?)?;
            }
        }
        Ok(Signed::Sum(parts))
    }

    /// The bound of the lemma that a move cites.
    pub(crate) fn cited_bound(&self, step: &Move) -> Option<&Signed> {
        self.bound(step.cited?)
    }
}

/// What a lemma states whose node composes a bound, den times: a simplified bound where the comparison accepts it.
pub(crate) fn stated(alloc: Global, den: u128, composed: Signed) -> Result<Signed, Memory> {
    let simpler = divided(alloc, den, &composed)?;
    if den >= 1 && is_within(alloc, den, &composed, &simpler)? {
        return Ok(simpler);
    }
    if den == 1 {
        return Ok(composed);
    }
    let whole = Box::new(alloc, composed)?;
    Ok(Signed::Quotient(whole, den))
}

/// A bound divided by a number, simplified.
pub(crate) fn divided(alloc: Global, den: u128, bound: &Signed) -> Result<Signed, Memory> {
    if den == 1 {
        simplified(alloc, bound)
    } else {
        quotient(alloc, bound, den)
    }
}

/// The charge 1 for each step by a rule.
pub(crate) fn once(alloc: Global, rule: u32) -> Result<Charge, Memory> {
    Ok(Charge {
        rule,
        form: one_poly(alloc)?,
    })
}
