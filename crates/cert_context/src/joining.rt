//! Joins the facts of a node's premises, by key.

ghost use Rattle.std.specs.Prelude.{◌≡◌, ◌++◌, IfOk, OnOk};
ghost use Rattle.cert_context.specs.Lookups.{EntersSize, EntersTime, HasSizes, HasTimes, facts_at};
ghost use Rattle.cert_context.specs.Joining.{StatesAllAt, StatesAlso};
ghost use Rattle.cert_context.specs.Statements.{facts_by, joined_by, stated_at};
ghost use Rattle.cert_types.specs.Views.{fact_of, facts_of};
ghost use Rattle.cert_types.specs.cert_rules.Known.{table_of};

use crate::lookup::Lookup;
use crate::stated_facts::{PremiseFacts, StatedFacts, facts_at as facts_kept};
use cert_types::Fact;
use model::Memory;
use std::alloc::Global;
use std::collections::{BTreeMap, BTreeSet};

// Enters the position of a fact that is a time, unless its rule has one.
fn enter_time(times: &mut BTreeMap<u32, usize>, fact: &Fact, position: usize) -> Result<(), Memory>
    ensures { OnOk result (EntersTime times.old (fact_of fact.now) position times.new) }
{
    match fact {
        Fact::Time { rule, .. } => {
            if !times.contains_key(rule) {
                times.insert(*rule, position)?;
            }
            Ok(())
        }
        Fact::Size { .. } => Ok(()),
        Fact::Cost { .. } => Ok(()),
    }
}

// Enters the position of a fact that is a size, unless its place has one.
fn enter_size(
    sizes: &mut BTreeMap<(u32, u32), usize>,
    fact: &Fact,
    position: usize,
) -> Result<(), Memory>
    ensures { OnOk result (EntersSize sizes.old (fact_of fact.now) position sizes.new) }
{
    match fact {
        Fact::Time { .. } => Ok(()),
        Fact::Size { rule, place, .. } => {
            let key = (*rule, *place);
            if !sizes.contains_key(&key) {
                sizes.insert(key, position)?;
            }
            Ok(())
        }
        Fact::Cost { .. } => Ok(()),
    }
}

// For each rule the position of its first time among the facts.
fn times_of(alloc: Global, facts: &[&Fact]) -> Result<BTreeMap<u32, usize>, Memory>
    ensures { IfOk result (λ times. HasTimes (facts_at facts.now) times) }
{
    let mut times = BTreeMap::new(alloc);
    for i in 0..facts.len() {
        enter_time(&mut times, facts[i], i)?;
    }
    Ok(times)
}

// For each place after a rule the position of its first size among the facts.
fn sizes_of(alloc: Global, facts: &[&Fact]) -> Result<BTreeMap<(u32, u32), usize>, Memory>
    ensures { IfOk result (λ sizes. HasSizes (facts_at facts.now) sizes) }
{
    let mut sizes = BTreeMap::new(alloc);
    for i in 0..facts.len() {
        enter_size(&mut sizes, facts[i], i)?;
    }
    Ok(sizes)
}

// Appends references to facts.
fn push_facts<'a>(all: &mut Vec<&'a Fact>, facts: &'a [Fact]) -> Result<(), Memory>
    ensures { OnOk result (facts_at all.new.items ≡ facts_at all.old.items ++ facts_of facts.now) }
{
    for fact in facts {
        all.push(fact)?;
    }
    Ok(())
}

// Joins the facts stored at a position, unless they were joined before.
fn push_kept<'a>(
    all: &mut Vec<&'a Fact>,
    seen: &mut BTreeSet<u32>,
    kept: &'a StatedFacts,
    position: u32,
) -> Result<(), Memory>
    requires { StatesAllAt kept.now seen.old (facts_at all.old.items) }
    ensures joined { OnOk result
        (StatesAlso (facts_at all.old.items) (stated_at kept.now position) (facts_at all.new.items)) }
    ensures result_is { OnOk result (StatesAllAt kept.now seen.new (facts_at all.new.items)) }
{
    if seen.contains(&position) {
        return Ok(());
    }
    push_facts(all, facts_kept(kept, position))?;
    seen.insert(position)?;
    Ok(())
}

// Joins the facts of a premise.
fn push_used<'a>(
    all: &mut Vec<&'a Fact>,
    seen: &mut BTreeSet<u32>,
    kept: &'a StatedFacts,
    used: &'a PremiseFacts,
) -> Result<(), Memory>
    requires { StatesAllAt kept.now seen.old (facts_at all.old.items) }
    ensures joined { OnOk result
        (StatesAlso (facts_at all.old.items) (facts_by kept.now used.now) (facts_at all.new.items)) }
    ensures result_is { OnOk result (StatesAllAt kept.now seen.new (facts_at all.new.items)) }
{
    match used {
        PremiseFacts::StatedFacts(position) => push_kept(all, seen, kept, *position),
        PremiseFacts::Own(facts) => push_facts(all, facts),
    }
}

// The facts of a node's premises, in order. Stored facts are joined once, however often they are used: for each key the
// first fact counts.
fn joined<'a>(
    alloc: Global,
    kept: &'a StatedFacts,
    uses: &'a [PremiseFacts],
) -> Result<Vec<&'a Fact>, Memory>
    ensures { IfOk result (λ facts. table_of (facts_at facts.items) ≡ table_of (joined_by kept.now uses.now)) }
{
    let mut all = Vec::new(alloc);
    let mut seen = BTreeSet::new(alloc);
    for used in uses {
        push_used(&mut all, &mut seen, kept, used)?;
    }
    Ok(all)
}

/// The facts of a node's premises, by key. No fact is copied, and stored facts are gone through once, however often
/// they are used: the running time is near-linear in the number of premises and of the facts that are stored or their
/// own.
///
/// # Errors
///
/// `Memory` where an allocation fails.
pub fn lookup_of<'a>(
    alloc: Global,
    kept: &'a StatedFacts,
    uses: &'a [PremiseFacts],
) -> Result<Lookup<'a>, Memory>
    ensures { IfOk result (λ l. table_of (facts_at l.facts.items) ≡ table_of (joined_by kept.now uses.now)) }
{
    let facts = joined(alloc, kept, uses)?;
    let times = times_of(alloc, &facts)?;
    let sizes = sizes_of(alloc, &facts)?;
    Ok(Lookup {
        facts,
        times,
        sizes,
    })
}
