//! Checks that the source of a rule isn't reached.

ghost use Rattle.std.specs.Prelude.{◌≡◌, ◌∷◌, [], IfOk, OnOk, MatchResult, slice_index_or, false};
ghost use Rattle.model.specs.Bounds.{Constant};
ghost use Rattle.model.specs.Facts.{Time};
ghost use Rattle.cert_context.specs.CheckContexts.{IsCheckContext, setting};
ghost use Rattle.cert_context.specs.NodeAnswers.{States};
ghost use Rattle.cert_context.specs.NodeAnswers.{Refuses};
ghost use Rattle.cert_context.specs.Statements.{facts_by, joined_by, stated_at};
ghost use Rattle.check_file.specs.Zeros.{AddsZeros, AreZeros, HasZerosAt};
ghost use Rattle.cert_types.specs.Views.{fact_of, facts_of};
ghost use Rattle.cert_types.specs.cert_rules.AcceptsPlain.{may_run};
ghost use Rattle.cert_types.specs.cert_rules.Checks.{unreached_checks};

use cert_context::{CheckContext, NodeFault, PremiseFacts, StatedFacts, facts_at, zero_time};
use cert_types::{Fact, Reason};
use gap_checks::is_rule;
use model::Memory;
use size_nodes::is_zero;
use std::alloc::Global;
use std::collections::BTreeSet;

// Adds the rule of a fact to a list, if the fact is a time of 0.
fn push_zero(cut: &mut Vec<u32>, fact: &Fact) -> Result<(), Memory>
    ensures { OnOk result (AddsZeros cut.old.items (fact_of fact.now ∷ []) cut.new.items) }
{
    match fact {
        Fact::Time { rule, bound } => {
            let is_dead = is_zero(bound);
            if is_dead {
                cut.push(*rule)?;
            }
            Ok(())
        }
        Fact::Size { .. } => Ok(()),
        Fact::Cost { .. } => Ok(()),
    }
}

// Adds the rules whose time is 0 by one of these facts.
fn push_zeros(cut: &mut Vec<u32>, facts: &[Fact]) -> Result<(), Memory>
    ensures { OnOk result (AddsZeros cut.old.items (facts_of facts.now) cut.new.items) }
{
    for fact in facts {
        push_zero(cut, fact)?;
    }
    Ok(())
}

// Adds the rules whose time is 0 by a fact stored at a position, unless these facts were looked at before.
fn push_kept(
    cut: &mut Vec<u32>,
    seen: &mut BTreeSet<u32>,
    kept: &StatedFacts,
    position: u32,
) -> Result<(), Memory>
    requires { HasZerosAt kept.now seen.old cut.old.items }
    ensures added { OnOk result (AddsZeros cut.old.items (stated_at kept.now position) cut.new.items) }
    ensures looked { OnOk result (HasZerosAt kept.now seen.new cut.new.items) }
{
    if seen.contains(&position) {
        return Ok(());
    }
    push_zeros(cut, facts_at(kept, position))?;
    seen.insert(position)?;
    Ok(())
}

// Adds the rules whose time is 0 by a fact of a premise.
fn push_used(
    cut: &mut Vec<u32>,
    seen: &mut BTreeSet<u32>,
    kept: &StatedFacts,
    used: &PremiseFacts,
) -> Result<(), Memory>
    requires { HasZerosAt kept.now seen.old cut.old.items }
    ensures added { OnOk result (AddsZeros cut.old.items (facts_by kept.now used.now) cut.new.items) }
    ensures looked { OnOk result (HasZerosAt kept.now seen.new cut.new.items) }
{
    match used {
        PremiseFacts::StatedFacts(position) => push_kept(cut, seen, kept, *position),
        PremiseFacts::Own(facts) => push_zeros(cut, facts),
    }
}

// The rules whose time is 0 by a fact of the premises. Stored facts are looked at once, however often they are used.
fn zero_rules(alloc: Global, kept: &StatedFacts, uses: &[PremiseFacts]) -> Result<Vec<u32>, Memory>
    ensures { IfOk result (λ cut. AreZeros (joined_by kept.now uses.now) cut.items) }
{
    let mut cut = Vec::new(alloc);
    let mut seen = BTreeSet::new(alloc);
    for used in uses {
        push_used(&mut cut, &mut seen, kept, used)?;
    }
    Ok(cut)
}

/// The fact of a node on a rule that isn't reached, given the facts of its premises.
///
/// # Errors
///
/// `Refused` with the first reason why the node isn't accepted; `Memory` where an allocation fails.
pub(crate) fn unreached_facts(
    alloc: Global,
    context: &CheckContext,
    kept: &StatedFacts,
    rule: u32,
    uses: &[PremiseFacts],
) -> Result<Vec<Fact>, NodeFault>
    requires { IsCheckContext context.now }
    ensures { MatchResult result
        (λ stated. States (unreached_checks (setting context.now) (may_run (joined_by kept.now uses.now)) rule)
        (Time rule (Constant 0) ∷ []) stated)
        (λ fault. Refuses (unreached_checks (setting context.now) (may_run (joined_by kept.now uses.now)) rule) fault) }
{
    if !is_rule(context.program, rule) {
        return Err(NodeFault::Refused(Reason::Shape));
    }
    let cut = zero_rules(alloc, kept, uses)?;
    let seen = context.graph.reached(alloc, &cut)?;
    let source = context.program.rules[rule as usize - 1].source;
    if is_set(&seen, source) {
        return Err(NodeFault::Refused(Reason::Reached));
    }
    Ok(zero_time(alloc, rule)?)
}

// Whether there is a flag at this position, and it is set.
fn is_set(flags: &[bool], position: u32) -> bool
    ensures { result ≡ slice_index_or flags.now position false }
{
    match flags.get(position as usize) {
        Some(flag) => *flag,
        None => false,
    }
}
