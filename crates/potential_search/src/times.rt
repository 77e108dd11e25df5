//! How often rules occur.

use crate::lemmas::once;
use crate::plans::{Counted, Gains, Plan};
use crate::search::{Candidate, Search};
use poly_terms::Memory;
use potential_questions::{SearchError, is_marked, marked_alone};
use potential_types::{Charge, SignedLemma};
use signed_bounds::Signed;
use simpler_bounds::degree;

/// The most products times monomials that a question of degree 2 may have.
const PRODUCT_LIMIT: usize = 6_000;

/// The most equations that a question over all rules that lead to a goal may have.
const EQUATION_LIMIT: u32 = 3_000;

/// Which symbols of a component have a function, and which rules between them set it anew.
#[derive(Clone, Copy, PartialEq, Eq)]
enum Part {
    /// The sources of the rules without a time; the rules with a time set it anew.
    Untimed,
    /// The source of the rule; all other rules set it anew.
    Alone,
    /// All; every rule keeps it.
    Component,
}

impl Search<'_> {
    /// The best bound that functions of degree 1 give on how often a rule occurs: without gains; with constant gains of
    /// the rules that have a time; with multiples of places; where the other rules of its component set the function
    /// anew; over parts of the component, with what enters as a gain; where rules behind which its guard fails set the
    /// function anew.
    pub(crate) fn linear_time(&mut self, rule: u32) -> Result<Option<Candidate>, SearchError> {
        let Some(prepared) = self.system.rule(rule) else {
            return Ok(None);
        };
        let source = prepared.source;
        let mut best = None;
        for gains in [Gains::Nothing, Gains::Constants, Gains::Affine] {
            if !is_linear(&best) {
                let lemma = self.whole_fall(rule, source, gains, 1)?;
                best = self.better(best, lemma);
            }
        }
        let lemma = self.resetting_fall(rule, source)?;
        best = self.better(best, lemma);
        for part in [Part::Untimed, Part::Alone, Part::Component] {
            if !is_linear(&best) {
                let lemma = self.local_fall(rule, source, part)?;
                best = self.better(best, lemma);
            }
        }
        self.switching_time(rule, best)
    }

    /// The best bound that functions of degree 1 over parts of the rule's component give on how often a rule occurs, with
    /// what enters as a gain.
    pub(crate) fn local_time(&mut self, rule: u32) -> Result<Option<Candidate>, SearchError> {
        let Some(prepared) = self.system.rule(rule) else {
            return Ok(None);
        };
        let source = prepared.source;
        let mut best = None;
        for part in [Part::Component, Part::Untimed, Part::Alone] {
            if !is_linear(&best) {
                let lemma = self.local_fall(rule, source, part)?;
                best = self.better(best, lemma);
            }
        }
        Ok(best)
    }

    /// The bound that functions of degree 2 without gains give on how often a rule occurs.
    pub(crate) fn square_time(&mut self, rule: u32) -> Result<Option<Candidate>, SearchError> {
        let Some(prepared) = self.system.rule(rule) else {
            return Ok(None);
        };
        let lemma = self.whole_fall(rule, prepared.source, Gains::Nothing, 2)?;
        Ok(self.better(None, lemma))
    }

    /// The bound that functions of degree 1 without gains give at one direction alone.
    pub(crate) fn time_toward(
        &mut self,
        rule: u32,
        direction: usize,
    ) -> Result<Option<SignedLemma>, SearchError> {
        let Some(prepared) = self.system.rule(rule) else {
            return Ok(None);
        };
        let listed = self.system.leading_to(self.alloc, &[prepared.source])?;
        let mut plan = self.time_plan(listed, Gains::Nothing, rule);
        plan.toward = Some(direction);
        let charges = self.once_list(rule)?;
        self.fall(&plan, charges, 1)
    }

    // A potential of all symbols that lead to a rule's source that pays 1 for each of its steps; none where the
    // question would be too large.
    fn whole_fall(
        &mut self,
        rule: u32,
        source: u32,
        gains: Gains,
        degree: u32,
    ) -> Result<Option<SignedLemma>, SearchError> {
        let listed = self.system.leading_to(self.alloc, &[source])?;
        if !self.is_small(&listed, degree) {
            return Ok(None);
        }
        let plan = self.time_plan(listed, gains, rule);
        let charges = self.once_list(rule)?;
        self.fall(&plan, charges, degree)
    }

    // A potential of all symbols that lead to a rule's source that pays 1 for each of its steps, and that the other rules
    // of the rule's component set anew; none where there are no others, or where the question would be too large.
    fn resetting_fall(
        &mut self,
        rule: u32,
        source: u32,
    ) -> Result<Option<SignedLemma>, SearchError> {
        let component = self.system.component_of(self.alloc, source)?;
        let resets = self.reset_rules(&component, rule, Part::Alone)?;
        let listed = self.system.leading_to(self.alloc, &[source])?;
        if resets.is_empty() || !self.is_small(&listed, 1) {
            return Ok(None);
        }
        let mut plan = self.time_plan(listed, Gains::Constants, rule);
        plan.resets = resets;
        let charges = self.once_list(rule)?;
        self.fall(&plan, charges, 1)
    }

    // A plan for a rule's time, in which no rule between listed symbols sets the function anew.
    fn time_plan(&self, listed: Vec<bool>, gains: Gains, rule: u32) -> Plan {
        Plan {
            listed,
            gains,
            counted: Counted::Sums,
            resets: Vec::new(self.alloc),
            without: rule,
            toward: None,
        }
    }

    // A potential of some symbols of a rule's component that pays 1 for each of its steps, with what enters as a gain.
    fn local_fall(
        &mut self,
        rule: u32,
        source: u32,
        part: Part,
    ) -> Result<Option<SignedLemma>, SearchError> {
        let component = self.system.component_of(self.alloc, source)?;
        let listed = match part {
            Part::Untimed => self.untimed_sources(&component, rule)?,
            Part::Alone => marked_alone(self.alloc, self.system, source)?,
            Part::Component => component,
        };
        if !self.is_small(&listed, 1) {
            return Ok(None);
        }
        let resets = self.reset_rules(&listed, rule, part)?;
        let mut plan = self.time_plan(listed, Gains::Affine, rule);
        plan.resets = resets;
        let charges = self.once_list(rule)?;
        self.fall(&plan, charges, 1)
    }

    // The sources of a rule and of the rules of a component that have no time.
    fn untimed_sources(&self, component: &[bool], rule: u32) -> Result<Vec<bool>, Memory> {
        let mut marks = vec![in self.alloc; false; self.system.places.len()]?;
        for number in 1..self.system.rule_end {
            if let Some(prepared) = self.system.rule(number) {
                let is_inside = is_marked(component, prepared.source)
                    && is_marked(component, prepared.target);
                if number == rule || (is_inside && self.lemmas.time(number).is_none()) {
                    if let Some(mark) = marks.get_mut(prepared.source as usize) {
                        *mark = true;
                    }
                }
            }
        }
        Ok(marks)
    }

    // The rules between listed symbols that set the function anew: those with a time, or all others.
    fn reset_rules(&self, listed: &[bool], rule: u32, part: Part) -> Result<Vec<u32>, Memory> {
        let mut found = Vec::new(self.alloc);
        for number in 1..self.system.rule_end {
            if let Some(prepared) = self.system.rule(number) {
                let is_inside = is_marked(listed, prepared.source)
                    && is_marked(listed, prepared.target);
                let is_reset = match part {
                    Part::Untimed => self.lemmas.time(number).is_some(),
                    Part::Alone => true,
                    Part::Component => false,
                };
                if number != rule && is_inside && is_reset {
                    found.push(number)?;
                }
            }
        }
        Ok(found)
    }

    /// The charge 1 for each step by a rule, alone in a list.
    pub(crate) fn once_list(&self, rule: u32) -> Result<Vec<Charge>, Memory> {
        let mut charges = Vec::new(self.alloc);
        charges.push(once(self.alloc, rule)?)?;
        Ok(charges)
    }

    /// Whether a question of a degree on the rules that lead to listed symbols is small enough.
    pub(crate) fn is_small(&self, listed: &[bool], degree: u32) -> bool {
        if degree >= 2 {
            return self.has_few_products(listed);
        }
        self.equations(listed) <= EQUATION_LIMIT
    }

    /// Whether a question of degree 2 on the rules that lead to listed symbols is small enough.
    pub(crate) fn has_few_products(&self, listed: &[bool]) -> bool {
        let mut size = 0usize;
        for rule in &self.system.rules {
            if is_marked(listed, rule.target) {
                let monomials = pairs(rule.unknowns as usize);
                let products = pairs(rule.rows.len());
                size = size.saturating_add(monomials.saturating_mul(products));
            }
        }
        size <= PRODUCT_LIMIT
    }
}

// How many products of at most two of so many things there are.
fn pairs(count: usize) -> usize {
    count
        .saturating_add(1)
        .saturating_mul(count.saturating_add(2))
        / 2
}

/// Whether a bound was found whose degree is at most 1, and that has no more than one summand beside a constant.
pub(crate) fn is_plain(best: &Option<Candidate>) -> bool {
    is_linear(best)
        && match best {
            Some(candidate) => has_one_part(&candidate.lemma.bound),
            None => false,
        }
}

// Whether a bound has no more than one summand beside constants.
fn has_one_part(bound: &Signed) -> bool {
    let Signed::Sum(parts) = bound else {
        return true;
    };
    let mut count = 0u32;
    for part in parts {
        match part {
            Signed::Const(_) => {}
            _ => count = count.saturating_add(1),
        }
    }
    count <= 1
}

/// Whether a bound was found whose degree is at most 1.
pub(crate) fn is_linear(best: &Option<Candidate>) -> bool {
    match best {
        Some(candidate) => degree(&candidate.lemma.bound) <= 1,
        None => false,
    }
}
