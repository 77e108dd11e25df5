//! The order of work: rounds over the rules, and then the total.

ghost use Rattle.std.specs.Prelude.{length, IfOk};
ghost use Rattle.potential_search.specs.Shape.{HasShape};

use crate::costs::written_costs;
use crate::findings::Findings;
use crate::lemmas::Lemmas;
use crate::pruning::pruned;
use crate::search::{Candidate, Search, answer_or, search_over, unless_memory};
use crate::shape::has_shape;
use crate::sizes::Side;
use crate::times::is_linear;
use guard_prep::RuleRows;
use its_model::Program;
use poly_terms::Memory;
use potential_questions::{SearchError, system_of};
use simpler_bounds::degree;
use std::alloc::Global;

/// The question that a round asks of each rule without a time.
#[derive(Clone, Copy, PartialEq, Eq)]
enum Kind {
    Linear,
    Phases,
    Square,
}

/// Looks for lemmas that bound how often each rule of a program occurs, what its steps cost, what runs cost, and how
/// large values are behind each rule, by the prepared rows of the rules in order. `work` says how many numbers pivots may
/// go through: half of them for how often rules occur, half of what is then left for costs, and so on. What was found
/// within the work is handed on.
///
/// # Errors
///
/// `Memory` where memory runs out; `Range` where the program has more rules than can be numbered, and where fewer prepared
/// rows are given than it has rules.
pub fn search_lemmas(
    alloc: Global,
    program: &Program,
    prepared_rules: &[RuleRows],
    work: u64,
) -> Result<Findings, SearchError>
    ensures { IfOk result (λ f. HasShape (length program.now.rules.items) f) }
{
    let system = system_of(alloc, program, prepared_rules)?;
    let costs = written_costs(alloc, program)?;
    let mut search = search_over(alloc, &system, costs, work)?;
    let kept = search.keep_half();
    let rounds = search.all_rounds();
    answer_or(rounds, ())?;
    search.give_back(kept);
    let findings = search.all_findings()?;
    let found = pruned(alloc, findings)?;
    if has_shape(&found, program.rules.len()) {
        Ok(found)
    } else {
        Err(SearchError::Range)
    }
}

impl Search<'_> {
    // What was found, with lemmas on costs and values besides.
    fn all_findings(self) -> Result<Findings, SearchError> {
        let mut search = self;
        let kept = search.keep_half();
        let costs = search.found_costs()?;
        let total = search.total();
        let total = unless_memory(total)?;
        search.give_back(kept);
        let kept = search.keep_half();
        let above = search.found_sizes(Side::Above)?;
        search.give_back(kept);
        let below = search.found_sizes(Side::Below)?;
        let Search {
            lemmas,
            asked,
            work,
            ..
        } = search;
        let Lemmas { list, times, .. } = lemmas;
        Ok(Findings {
            lemmas: list,
            times,
            costs,
            total,
            above,
            below,
            asked,
            work,
        })
    }

    // The lemmas on costs, none where a number is too large.
    fn found_costs(&mut self) -> Result<Vec<Option<u32>>, SearchError> {
        let nothing = vec![in self.alloc; None; self.system.rules.len()]?;
        let costs = self.find_costs();
        answer_or(costs, nothing)
    }

    // The lemmas on values, none where a number is too large.
    fn found_sizes(&mut self, side: Side) -> Result<Vec<Vec<Option<u32>>>, SearchError> {
        let mut nothing = Vec::new(self.alloc);
        for _ in &self.system.rules {
            nothing.push(Vec::new(self.alloc))?;
        }
        let sizes = self.sizes(side);
        answer_or(sizes, nothing)
    }

    // Asks linear questions as long as that gives times, then of two phases, then of degree 2, and from the first again
    // after each that gives some; then each rule whose bound isn't linear once more.
    fn all_rounds(&mut self) -> Result<(), SearchError> {
        for _ in 1..self.system.rule_end {
            let found = self.round(Kind::Linear)?
                || self.round(Kind::Phases)?
                || self.round(Kind::Square)?;
            if !found {
                break;
            }
        }
        for _ in 0..2u32 {
            self.again()?;
        }
        Ok(())
    }

    // Asks each rule without a time, and says whether some got one.
    fn round(&mut self, kind: Kind) -> Result<bool, SearchError> {
        let mut found = false;
        for rule in 1..self.system.rule_end {
            if self.lemmas.time(rule).is_none() {
                self.forget_failures();
                if let Some(number) = self.new_time(rule, kind)? {
                    self.lemmas.set_time(rule, number);
                    found = true;
                }
            }
        }
        Ok(found)
    }

    // The lemma on how often a rule occurs. Where the question over all that leads to the rule would be large, that over the
    // rule's component alone comes first, and what that gives is taken as it is.
    fn new_time(&mut self, rule: u32, kind: Kind) -> Result<Option<u32>, SearchError> {
        if kind == Kind::Linear && self.leads_from_many(rule)? {
            let local = self.local_time(rule)?;
            if is_linear(&local) {
                return self.keep(local);
            }
        }
        let best = self.time_of(rule, kind)?;
        self.with_variants(rule, best)
    }

    // Whether the question over all that leads to a rule is large.
    fn leads_from_many(&self, rule: u32) -> Result<bool, Memory> {
        match self.system.rule(rule) {
            Some(prepared) => {
                let listed = self.system.leading_to(self.alloc, &[prepared.source])?;
                Ok(self.is_large(&listed))
            }
            None => Ok(false),
        }
    }

    // The best bound of a kind on how often a rule occurs.
    fn time_of(&mut self, rule: u32, kind: Kind) -> Result<Option<Candidate>, SearchError> {
        match kind {
            Kind::Linear => self.linear_time(rule),
            Kind::Phases => self.phases_time(rule),
            Kind::Square => self.square_time(rule),
        }
    }

    // Asks each rule whose bound isn't linear once more.
    fn again(&mut self) -> Result<(), SearchError> {
        for rule in 1..self.system.rule_end {
            if let Some(value) = self.value_to_lower(rule) {
                self.lower(rule, value)?;
            }
        }
        Ok(())
    }

    // The sum over the judges of the bound on how often a rule occurs, where it isn't linear.
    fn value_to_lower(&self, rule: u32) -> Option<u128> {
        let bound = self.lemmas.bound(self.lemmas.time(rule)?)?;
        if degree(bound) <= 1 {
            return None;
        }
        Some(self.judged(bound))
    }

    // Asks a rule once more, and keeps what is better.
    fn lower(&mut self, rule: u32, value: u128) -> Result<(), SearchError> {
        self.forget_failures();
        let linear = self.linear_time(rule)?;
        let square = self.square_time(rule)?;
        let best = match (linear, square) {
            (Some(a), Some(b)) if b.value < a.value => Some(b),
            (Some(a), _) => Some(a),
            (None, found) => found,
        };
        match best {
            Some(candidate) if candidate.value < value => {
                let number = self.lemmas.push(candidate.lemma)?;
                self.lemmas.set_time(rule, number);
                Ok(())
            }
            _ => Ok(()),
        }
    }

    /// What was looked for and not found may be found with what is known now.
    pub(crate) fn forget_failures(&mut self) {
        self.lemmas.sums.forget_failures();
        self.lemmas.peaks.forget_failures();
    }
}
