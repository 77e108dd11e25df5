//! Gains that are raised so that they are never negative: what a potential pays mustn't be.

use crate::search::{LEVELS, Search, unless_memory};
use poly_terms::Poly;
use potential_questions::{SearchError, ask_raise, constant_of, less_number};
use potential_types::Move;
use simpler_bounds::degree;

impl Search<'_> {
    /// Has a move cite the lemma on the sum of its gain. Where its bound isn't linear, the gain is raised so that it is
    /// never negative, if the sum of that has a lesser bound.
    pub(crate) fn cite_sum(&mut self, step: &mut Move) -> Result<(), SearchError> {
        step.cited = self.sum(step.rule, &step.gain, LEVELS)?;
        if constant_of(&step.gain).is_some() || self.is_linear_sum(step.cited) {
            return Ok(());
        }
        let Some(raised) = self.raised(step.rule, &step.gain)? else {
            return Ok(());
        };
        let cited = self.sum(step.rule, &raised, LEVELS)?;
        if self.has_less(cited, step.cited) {
            step.gain = raised;
            step.cited = cited;
        }
        Ok(())
    }

    // Whether a lemma's bound has degree at most 1.
    fn is_linear_sum(&self, lemma: Option<u32>) -> bool {
        match lemma.and_then(|number| self.lemmas.bound(number)) {
            Some(bound) => degree(bound) <= 1,
            None => false,
        }
    }

    // Whether a lemma has a bound whose sum over the judges is less than that of another, or the other has none.
    fn has_less(&self, lemma: Option<u32>, other: Option<u32>) -> bool {
        let bound = lemma.and_then(|number| self.lemmas.bound(number));
        let known = other.and_then(|number| self.lemmas.bound(number));
        match (bound, known) {
            (Some(bound), Some(known)) => self.judged(bound) < self.judged(known),
            (Some(_), None) => true,
            (None, _) => false,
        }
    }

    // The polynomial raised by the least number with which the rows of a rule show that it isn't negative; none where
    // they show that of it as it is, or of none.
    fn raised(&mut self, rule: u32, form: &Poly) -> Result<Option<Poly>, SearchError> {
        let mut left = self.begin_question(&[]);
        let answer = ask_raise(self.alloc, self.system, rule, form, &mut left);
        self.end_question(left);
        match unless_memory(answer)? {
            Some(number) if number > 0 => self.with_number(form, number),
            _ => Ok(None),
        }
    }

    // The sum of a polynomial and a number; none where a coefficient is beyond 128 bits.
    fn with_number(&self, form: &Poly, number: i128) -> Result<Option<Poly>, SearchError> {
        match less_number(self.alloc, form, number.saturating_neg()) {
            Ok(sum) => Ok(Some(sum)),
            Err(SearchError::Memory) => Err(SearchError::Memory),
            Err(SearchError::Range | SearchError::Budget) => Ok(None),
        }
    }
}
