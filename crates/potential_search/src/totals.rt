//! What runs cost.

use crate::plans::{Counted, Gains, Plan};
use crate::search::Search;
use poly_terms::Memory;
use potential_questions::{SearchError, is_marked};
use potential_types::{Charge, Combination, SignedLemma, SignedNode, copied_bound};
use signed_bounds::Signed;
use std::alloc::Global;

/// Which rules of a component are taken: those that lead to one of its symbols, or those that leave it for good.
#[derive(Clone, Copy, PartialEq, Eq)]
enum Side {
    Inside,
    Leaving,
}

impl Search<'_> {
    /// The best bound on the costs of all steps together: as one goal, as the sum of one goal for each component, and
    /// as the sum of the costs of rules.
    pub(crate) fn total(&mut self) -> Result<Option<u32>, SearchError> {
        let all = self.all_rules()?;
        let by_rules = self.sum_of_costs(&all)?;
        let by_components = self.sum_of_components(&all)?;
        let best = self.lesser(by_rules, by_components);
        let joint = self.joint(&all)?;
        Ok(self.lesser(best, joint))
    }

    // The numbers of all rules.
    fn all_rules(&self) -> Result<Vec<u32>, Memory> {
        let mut rules = Vec::new(self.alloc);
        for number in 1..self.system.rule_end {
            rules.push(number)?;
        }
        Ok(rules)
    }

    // The lemma whose bound has the lesser sum over the judges; of equal ones that with fewer summands, and else the
    // first.
    fn lesser(&self, first: Option<u32>, second: Option<u32>) -> Option<u32> {
        let (Some(a), Some(b)) = (first, second) else {
            return first.or(second);
        };
        let (value, other) = (self.lemma_value(a), self.lemma_value(b));
        if other < value || (other == value && self.summands(b) < self.summands(a)) {
            Some(b)
        } else {
            Some(a)
        }
    }

    // How many summands a lemma's bound has.
    fn summands(&self, number: u32) -> usize {
        match self.lemmas.bound(number) {
            Some(Signed::Sum(parts)) => parts.len(),
            _ => 1,
        }
    }

    // The sum of a lemma's bound over the judges.
    fn lemma_value(&self, number: u32) -> u128 {
        match self.lemmas.bound(number) {
            Some(bound) => self.judged(bound),
            None => u128::MAX,
        }
    }

    // The best potential that pays for the costs of some rules: with constant gains, with multiples of places, and of
    // degree 2.
    fn joint(&mut self, rules: &[u32]) -> Result<Option<u32>, SearchError> {
        if rules.len() < 2 {
            return Ok(None);
        }
        let mut best = None;
        for (gains, degree) in [
            (Gains::Constants, 1u32),
            (Gains::Affine, 1),
            (Gains::Nothing, 2),
        ] {
            self.forget_failures();
            let lemma = self.joint_fall(rules, gains, degree)?;
            best = self.better(best, lemma);
        }
        self.keep(best)
    }

    // A potential that pays for the costs of some rules, which may all gain; none where the question would be too
    // large.
    fn joint_fall(
        &mut self,
        rules: &[u32],
        gains: Gains,
        degree: u32,
    ) -> Result<Option<SignedLemma>, SearchError> {
        let sources = self.sources_of(rules)?;
        let listed = self.system.leading_to(self.alloc, &sources)?;
        if !self.is_small(&listed, degree) {
            return Ok(None);
        }
        let plan = Plan {
            listed,
            gains,
            counted: Counted::Sums,
            resets: Vec::new(self.alloc),
            without: 0,
            toward: None,
        };
        let charges = self.costs_of(rules)?;
        self.fall(&plan, charges, degree)
    }

    // The sources of rules.
    fn sources_of(&self, rules: &[u32]) -> Result<Vec<u32>, Memory> {
        let mut sources = Vec::new(self.alloc);
        for number in rules {
            if let Some(rule) = self.system.rule(*number) {
                sources.push(rule.source)?;
            }
        }
        Ok(sources)
    }

    // The charges of the costs of some rules.
    fn costs_of(&self, rules: &[u32]) -> Result<Vec<Charge>, Memory> {
        let mut charges = Vec::new(self.alloc);
        for number in rules {
            charges.push(self.cost_charge(*number)?)?;
        }
        Ok(charges)
    }

    // The sum of the costs of rules, where each has a bound.
    fn sum_of_costs(&mut self, rules: &[u32]) -> Result<Option<u32>, SearchError> {
        let mut sum: Option<u32> = None;
        for rule in rules {
            let Some(cost) = self.cost_lemma(*rule)? else {
                return Ok(None);
            };
            sum = self.plus(sum, cost)?;
        }
        Ok(sum)
    }

    // The lemma that adds one to a sum.
    fn plus(&mut self, sum: Option<u32>, next: u32) -> Result<Option<u32>, SearchError> {
        match sum {
            None => Ok(Some(next)),
            Some(before) => self.lemmas.push_add(self.alloc, before, next),
        }
    }

    // The sum of the best bounds on the rules that leave each component, as a bound on all rules.
    fn sum_of_components(&mut self, all: &[u32]) -> Result<Option<u32>, SearchError> {
        let mut seen = vec![in self.alloc; false; self.system.places.len()]?;
        let mut sum: Option<u32> = None;
        for number in all {
            let Some(source) = self.system.rule(*number).map(|rule| rule.source) else {
                continue;
            };
            if is_marked(&seen, source) {
                continue;
            }
            let component = self.system.component_of(self.alloc, source)?;
            mark_all(&mut seen, &component);
            let Some(part) = self.component_sum(&component)? else {
                return Ok(None);
            };
            sum = self.plus(sum, part)?;
        }
        match sum {
            Some(number) => self.among_all(number, all),
            None => Ok(None),
        }
    }

    // The rules that leave a symbol of a component, those that lead to another one or all others.
    fn rules_of(&self, component: &[bool], side: Side) -> Result<Vec<u32>, Memory> {
        let mut rules = Vec::new(self.alloc);
        for number in 1..self.system.rule_end {
            if let Some(rule) = self.system.rule(number) {
                let is_inside = is_marked(component, rule.target);
                if is_marked(component, rule.source) && is_inside == (side == Side::Inside) {
                    rules.push(number)?;
                }
            }
        }
        Ok(rules)
    }

    // The best bound on the rules that leave the symbols of a component: the sum of their costs; all as one goal; those
    // inside it as one goal, and the costs of the others.
    fn component_sum(&mut self, component: &[bool]) -> Result<Option<u32>, SearchError> {
        let inside = self.rules_of(component, Side::Inside)?;
        let leaving = self.rules_of(component, Side::Leaving)?;
        let apart = self.sum_of_both(&inside, &leaving)?;
        let joint = self.joint(&inside)?;
        let best = match joint {
            Some(number) => {
                let sum = self.with_costs(number, &leaving)?;
                self.lesser(apart, sum)
            }
            None => apart,
        };
        if leaving.is_empty() {
            return Ok(best);
        }
        let whole = self.joint(&in_order(self.alloc, &inside, &leaving)?)?;
        Ok(self.lesser(best, whole))
    }

    // The sum of the costs of rules and of further ones, where each has a bound.
    fn sum_of_both(&mut self, rules: &[u32], others: &[u32]) -> Result<Option<u32>, SearchError> {
        match self.sum_of_costs(rules)? {
            Some(number) => self.with_costs(number, others),
            None if rules.is_empty() => self.sum_of_costs(others),
            None => Ok(None),
        }
    }

    // A sum and the costs of rules, where each has a bound.
    fn with_costs(&mut self, sum: u32, rules: &[u32]) -> Result<Option<u32>, SearchError> {
        match self.sum_of_costs(rules)? {
            Some(costs) => self.plus(Some(sum), costs),
            None if rules.is_empty() => Ok(Some(sum)),
            None => Ok(None),
        }
    }

    // The lemma that a sum of all rules, in another order, is that of all rules.
    fn among_all(&mut self, number: u32, all: &[u32]) -> Result<Option<u32>, SearchError> {
        let Some(bound) = self.lemmas.bound(number) else {
            return Ok(None);
        };
        let bound = copied_bound(self.alloc, bound)?;
        let charges = self.costs_of(all)?;
        let node = SignedNode::Combined(Combination::Among(charges, number));
        Ok(Some(self.lemmas.push(SignedLemma { node, bound })?))
    }
}

// Marks what is marked in another list.
fn mark_all(marks: &mut Vec<bool>, others: &[bool]) {
    for (mark, is_marked) in marks.iter_mut().zip(others.iter()) {
        *mark = *mark || *is_marked;
    }
}

// The numbers of two lists, ascending.
fn in_order(alloc: Global, first: &[u32], second: &[u32]) -> Result<Vec<u32>, Memory> {
    let mut numbers = first.to_vec(alloc)?;
    numbers.extend_from_slice(second)?;
    numbers.sort_unstable_by_key(|number| *number);
    Ok(numbers)
}
