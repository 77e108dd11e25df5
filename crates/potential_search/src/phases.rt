//! How often a rule occurs, by two phases.

use crate::lemmas::stated;
use crate::search::{Candidate, Search, is_whole, outcome_of, unless_memory};
use crate::unanswered::phases_key;
use poly_terms::Poly;
use potential_questions::{SearchError, ask_phases, less_number};
use potential_types::{PhasesNode, SignedLemma, SignedNode, SymbolFunction, copied_poly};
use signed_bounds::Signed;

impl Search<'_> {
    /// The bound that two phases give on how often a rule occurs.
    pub(crate) fn phases_time(&mut self, rule: u32) -> Result<Option<Candidate>, SearchError> {
        let Some(counted) = self.system.rule(rule) else {
            return Ok(None);
        };
        let listed = self.system.leading_to(self.alloc, &[counted.source])?;
        let Some(node) = self.phases_answer(rule, &listed)? else {
            return Ok(None);
        };
        let lemma = unless_memory(self.phases_lemma(node))?;
        Ok(self.better(None, lemma))
    }

    // What answers the question for two phases that count a rule, over the symbols that lead to it. What else is known
    // doesn't matter, so a question that had no answer isn't asked again.
    fn phases_answer(
        &mut self,
        rule: u32,
        listed: &[bool],
    ) -> Result<Option<PhasesNode>, SearchError> {
        let key = phases_key(self.alloc, rule)?;
        if !self.may_ask(&key, None)? {
            return Ok(None);
        }
        let mut left = self.begin_question(listed);
        let is_whole = is_whole(left);
        let answer = ask_phases(self.alloc, self.system, rule, &self.directions, &mut left);
        self.end_question(left);
        self.remember(key, None, outcome_of(&answer, is_whole))?;
        unless_memory(answer)
    }

    // The lemma of two phases: den, twice the first function at the start, and the root of 2 * den times the second one
    // there less den, together divided by den.
    fn phases_lemma(&self, node: PhasesNode) -> Result<Option<SignedLemma>, SearchError> {
        let den = u128::from(node.den);
        let first = Signed::Part(self.function_at_start(&node.firsts)?);
        let second = self.function_at_start(&node.seconds)?;
        let less = Signed::Part(less_number(self.alloc, &second, i128::from(node.den))?);
        let mut factors = Vec::new(self.alloc);
        factors.push(Signed::Const(den.saturating_mul(2)))?;
        factors.push(less)?;
        let root = Signed::Root(Box::new(self.alloc, Signed::Prod(factors))?);
        let mut twice = Vec::new(self.alloc);
        twice.push(Signed::Const(2))?;
        twice.push(first)?;
        let mut parts = Vec::new(self.alloc);
        parts.push(Signed::Const(den))?;
        parts.push(Signed::Prod(twice))?;
        parts.push(root)?;
        let bound = stated(self.alloc, den, Signed::Sum(parts))?;
        Ok(Some(SignedLemma {
            node: SignedNode::InPhases(node),
            bound,
        }))
    }

    // The start symbol's function, 0 where it has none.
    fn function_at_start(&self, functions: &[SymbolFunction]) -> Result<Poly, SearchError> {
        match self.start_form(functions) {
            Some(form) => Ok(copied_poly(self.alloc, form)?),
            None => Ok(Poly {
                terms: Vec::new(self.alloc),
            }),
        }
    }
}
