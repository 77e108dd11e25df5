//! The numbers of the lemmas that state bounds on the rules of the program that a section spells.

ghost use Rattle.std.specs.Prelude.{◌<◌, ◌^◌, length};

use cert_types::Fact;
use claims_check::rules_below;
use its_model::Program;
use poly_terms::Memory;
use refined_programs::Section;
use std::alloc::Global;

/// The lemmas about the rules that a section spells, by the rules of the program that these are copies of.
#[derive(Debug, Drop)]
pub(crate) struct RuleLemmas {
    // For each spelled rule, in order, the number of the program's rule that it is a copy of.
    originals: Vec<u32>,
    // For each spelled rule, in order, the lemmas about it.
    copies: Vec<CopyLemmas>,
}

// The numbers of what lemmas state about a spelled rule, from 1 on, or 0 where they state nothing.
#[derive(Debug, Drop)]
struct CopyLemmas {
    has_cost: bool,
    time: u32,
    cost: u32,
    // By place, in order.
    sizes: Vec<u32>,
}

/// The lemmas about the rules that a section spells, or of the program where there is none, given what the lemmas state, in order. If several state a bound on
/// the same time, cost or size, the first one is used.
///
/// # Errors
///
/// `Memory` where an allocation fails.
pub(crate) fn rule_lemmas(
    alloc: Global,
    p: &Program,
    section: Option<&Section>,
    spelled_program: &Program,
    facts: &[Fact],
) -> Result<RuleLemmas, Memory>
    requires { length p.now.rules.items < 2 ^ 32 }
{
    let mut copies = Vec::new(alloc);
    for rule in &spelled_program.rules {
        copies.push(CopyLemmas {
            has_cost: rule.cost.is_some(),
            time: 0,
            cost: 0,
            sizes: vec![in alloc; 0u32; rule.updates.len()]?,
        })?;
    }
    let mut number = 1u32;
    for fact in facts {
        record_lemma(&mut copies, number, fact);
        number = number.saturating_add(1);
    }
    Ok(RuleLemmas {
        originals: rules_below(alloc, p, section)?,
        copies,
    })
}

// Records the lemma with this number for what it states a bound on, unless an earlier lemma does.
fn record_lemma(copies: &mut Vec<CopyLemmas>, number: u32, fact: &Fact) {
    match fact {
        Fact::Time { rule, .. } => {
            let index = position(*rule);
            if index < copies.len() && copies[index].time == 0 {
                copies[index].time = number;
            }
        }
        Fact::Cost { rule, .. } => {
            let index = position(*rule);
            if index < copies.len() && copies[index].cost == 0 {
                copies[index].cost = number;
            }
        }
        Fact::Size { rule, place, .. } => {
            let index = position(*rule);
            if index < copies.len() {
                record_size_lemma(&mut copies[index].sizes, position(*place), number);
            }
        }
    }
}

// Records the number of a lemma on the size at a position, unless an earlier lemma states one.
fn record_size_lemma(sizes: &mut Vec<u32>, index: usize, number: u32) {
    if index < sizes.len() && sizes[index] == 0 {
        sizes[index] = number;
    }
}

// The position of an item by its number from 1 on; for number 0 a position past the end of every list.
fn position(number: u32) -> usize {
    match number.checked_sub(1) {
        Some(before) => before as usize,
        None => usize::MAX,
    }
}

impl RuleLemmas {
    /// The numbers of the lemmas on the times of a rule's copies, in order.
    ///
    /// # Errors
    ///
    /// `Memory` where an allocation fails.
    pub(crate) fn on_time(&self, alloc: Global, rule: u32) -> Result<Vec<u32>, Memory> {
        let mut numbers = Vec::new(alloc);
        for (i, copy) in self.copies.iter().enumerate() {
            if self.is_copy_of(i, rule) {
                numbers.push(copy.time)?;
            }
        }
        Ok(numbers)
    }

    /// The numbers of the lemmas on what the steps of a rule's copies cost, in order.
    ///
    /// # Errors
    ///
    /// `Memory` where an allocation fails.
    pub(crate) fn on_cost(&self, alloc: Global, rule: u32) -> Result<Vec<u32>, Memory> {
        let mut numbers = Vec::new(alloc);
        for (i, copy) in self.copies.iter().enumerate() {
            if self.is_copy_of(i, rule) {
                numbers.push(copy.cost)?;
            }
        }
        Ok(numbers)
    }

    /// The numbers of the lemmas on what the steps of each spelled rule cost, in order: those on the times of rules
    /// without a cost.
    ///
    /// # Errors
    ///
    /// `Memory` where an allocation fails.
    pub(crate) fn on_total(&self, alloc: Global) -> Result<Vec<u32>, Memory> {
        let mut numbers = Vec::new(alloc);
        for copy in &self.copies {
            numbers.push(if copy.has_cost { copy.cost } else { copy.time })?;
        }
        Ok(numbers)
    }

    /// The numbers of the lemmas on the value at a place after a rule's copies, in order.
    ///
    /// # Errors
    ///
    /// `Memory` where an allocation fails.
    pub(crate) fn on_size(&self, alloc: Global, rule: u32, place: u32) -> Result<Vec<u32>, Memory> {
        let mut numbers = Vec::new(alloc);
        for (i, copy) in self.copies.iter().enumerate() {
            if self.is_copy_of(i, rule) {
                numbers.push(number_at(&copy.sizes, position(place)))?;
            }
        }
        Ok(numbers)
    }

    // Whether the spelled rule at a position is a copy of the rule with a number.
    fn is_copy_of(&self, index: usize, rule: u32) -> bool {
        self.originals.get(index) == Some(&rule)
    }
}

// The number at a position, or 0 past the end.
fn number_at(numbers: &[u32], index: usize) -> u32 {
    match numbers.get(index) {
        Some(number) => *number,
        None => 0,
    }
}
