//! The tally along a run.

ghost use Rattle.std.specs.Prelude.{◌≡◌, ◌-◌, ◌<◌, ◌≤◌, ◌^◌, ℕ, ℤ, List, [], length, replicate, max, pos};
ghost use Rattle.std.specs.Prelude.{nat_abs, slice_index, slice_index_or, IfOk};
ghost use Rattle.its_model.specs.Views.{program_of};
ghost use Rattle.run_replay.specs.Replays.{tally_along};
ghost use Rattle.run_replay.specs.ReplayAnswers.{sizes_in, sums_of, Notes};

use bound_expr::capped_add;
use its_model::Program;
use std::alloc::{AllocError, Global};

/// What is counted and measured along a run.
#[derive(Debug, PartialEq, Eq, Drop)]
pub struct Tally {
    /// The number of steps.
    pub steps: u64,
    /// How often each rule occurs, in the order of the rules.
    pub counts: Vec<u64>,
    /// For each rule, in order, and for each place of its target, in order, the greatest absolute value after the rule;
    /// 0 if the rule doesn't occur.
    pub greatest: Vec<Vec<u128>>,
    /// The cost of all steps by each rule together, in the order of the rules, or 2^127 if it is more.
    pub costs: Vec<u128>,
    /// The cost of all steps together, or 2^127 if it is more.
    pub spent: u128,
}

impl Tally {
    /// The tally without steps.
    ///
    /// # Errors
    ///
    /// If an allocation fails.
    pub(crate) fn new(alloc: Global, p: &Program) -> Result<Tally, AllocError>
        ensures { IfOk result (λ t. (start : List ℤ) → sums_of t ≡ tally_along (program_of p.now) start []) }
    {
        let mut greatest = Vec::new(alloc);
        for rule in &p.rules {
            let row = zeros(alloc, rule.updates.len())?;
            greatest.push(row)?;
        }
        let counts = no_counts(alloc, p.rules.len())?;
        let costs = zeros(alloc, p.rules.len())?;
        Ok(Tally {
            steps: 0,
            counts,
            greatest,
            costs,
            spent: 0,
        })
    }

    /// Adds a step by the rule with a number, which leads to these values and has this cost.
    pub(crate) fn note(&mut self, rule: u32, values: &[i128], cost: u128)
        requires rule { 0 < rule }
        requires counted { rule ≤ length self.old.counts.items }
        requires sized { rule ≤ length self.old.greatest.items }
        requires places { length (slice_index_or (sizes_in self.old) (rule - 1) []) ≡ length values.now }
        requires steps { self.old.steps < 2 ^ 64 - 1 }
        requires count { slice_index self.old.counts.items (rule - 1) < 2 ^ 64 - 1 }
        requires charged { rule ≤ length self.old.costs.items }
        ensures { Notes (rule - 1) values.now cost (sums_of self.old) (sums_of self.new) }
    {
        let i = rule as usize - 1;
        self.steps += 1;
        self.counts[i] += 1;
        raise(&mut self.greatest[i], values);
        self.costs[i] = capped_add(self.costs[i], cost);
        self.spent = capped_add(self.spent, cost);
    }
}

// This many zeros, one for each rule.
fn no_counts(alloc: Global, rules: usize) -> Result<Vec<u64>, AllocError>
    ensures { IfOk result (λ counts. counts.items ≡ replicate rules 0) }
{
    vec![in alloc; 0u64; rules]
}

// This many zeros, for the places of a rule or for the costs of rules.
fn zeros(alloc: Global, n: usize) -> Result<Vec<u128>, AllocError>
    ensures { IfOk result (λ numbers. numbers.items ≡ replicate n 0) }
{
    vec![in alloc; 0u128; n]
}

// Replaces each number by the absolute value at the same position if that is greater.
fn raise(row: &mut Vec<u128>, values: &[i128])
    requires { length row.old.items ≡ length values.now }
    ensures length { length row.new.items ≡ length row.old.items }
    ensures each { (k : ℕ) → k < length values.now → slice_index row.new.items k
        ≡ max (slice_index row.old.items k) (nat_abs (slice_index_or values.now k (pos 0))) }
{
    for (i, value) in values.iter().enumerate() {
        row[i] = row[i].max(value.unsigned_abs());
    }
}
