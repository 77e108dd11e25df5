//! Checks the lemmas of a file, each after those before it.

ghost use Rattle.std.specs.Prelude.{◌≡◌, ◌+◌, ◌++◌, ◌<◌, ◌^◌, [], ℕ, List, length, map, IfOk, OnOk, MatchResult};
ghost use Rattle.std.specs.List.{AllByRecursion};
ghost use Rattle.its_model.specs.Views.{program_of};
ghost use Rattle.cert_context.specs.Statements.{all_facts};
ghost use Rattle.check_file.specs.Files.{HasFewNodes, RefusesLemmas};
ghost use Rattle.cert_context.specs.CheckContexts.{IsCheckContext, program, setting};
ghost use Rattle.check_file.specs.Judging.{IsKeptMore, IsKeptOf, IsPlaced};
ghost use Rattle.cert_context.specs.Statements.{past_of};
ghost use Rattle.cert_types.specs.Views.{fact_of, facts_of, proof_of};
ghost use Rattle.cert_types.specs.cert_program.Setting.{setting_of};

use crate::error::CheckError;
use crate::judging::judge;
use crate::refusal::at_lemma;
use cert_context::{CheckContext, PremiseFacts, StatedFacts, facts_at, start_facts};
use cert_types::{Fact, Proof};
use its_model::Program;
use model::Memory;
use std::alloc::Global;

// The stored facts before the first lemma: those of the virtual entry.
fn started(alloc: Global, p: &Program) -> Result<StatedFacts, Memory>
    ensures { IfOk result (λ kept. IsKeptOf (program_of p.now) (setting_of (program_of p.now)) [] kept) }
{
    let mut stated = Vec::new(alloc);
    stated.push(start_facts(alloc, p)?)?;
    Ok(StatedFacts {
        stated,
        lemmas: Vec::new(alloc),
    })
}

// Stores the facts of one more lemma.
fn keep(kept: &mut StatedFacts, stated: PremiseFacts) -> Result<(), Memory>
    requires placed { IsPlaced kept.old stated }
    requires few { length kept.old.stated.items < 2 ^ 32 }
    ensures { OnOk result (IsKeptMore kept.old stated kept.new) }
{
    match stated {
        PremiseFacts::StatedFacts(position) => {
            kept.lemmas.push(position)?;
            Ok(())
        }
        PremiseFacts::Own(facts) => {
            let position = kept.stated.len() as u32;
            kept.lemmas.push(position)?;
            kept.stated.push(facts)?;
            Ok(())
        }
    }
}

/// The facts of accepted lemmas, or the first node that isn't accepted.
///
/// # Errors
///
/// `No` with the first node that isn't accepted, and its first reason; `Memory` where an allocation fails.
pub(crate) fn judge_lemmas(
    alloc: Global,
    context: &CheckContext,
    lemmas: &[Proof],
) -> Result<StatedFacts, CheckError>
    requires context { IsCheckContext context.now }
    requires few { length lemmas.now < 2 ^ 32 }
    requires nodes { AllByRecursion HasFewNodes (map proof_of lemmas.now) }
    ensures { MatchResult result
        (λ kept. IsKeptOf (program context.now) (setting context.now) (map proof_of lemmas.now) kept)
        (λ error. RefusesLemmas (setting context.now) (map proof_of lemmas.now) error) }
{
    let mut kept = started(alloc, context.program)?;
    for i in 0..lemmas.len() {
        match judge(alloc, context, &kept, &lemmas[i], 0) {
            Ok(judged) => keep(&mut kept, judged.stated)?,
            Err(fault) => return Err(at_lemma(fault, i as u32 + 1)),
        }
    }
    Ok(kept)
}

// A copy of a fact.
fn copied(alloc: Global, fact: &Fact) -> Result<Fact, Memory>
    ensures { IfOk result (λ f. fact_of f ≡ fact_of fact.now) }
{
    match fact {
        Fact::Time { rule, bound } => Ok(Fact::Time {
            rule: *rule,
            bound: bound.copied(alloc)?,
        }),
        Fact::Size { rule, place, bound } => Ok(Fact::Size {
            rule: *rule,
            place: *place,
            bound: bound.copied(alloc)?,
        }),
        Fact::Cost { rule, bound } => Ok(Fact::Cost {
            rule: *rule,
            bound: bound.copied(alloc)?,
        }),
    }
}

// Appends copies of facts.
fn push_copies(alloc: Global, all: &mut Vec<Fact>, facts: &[Fact]) -> Result<(), Memory>
    ensures { OnOk result (facts_of all.new.items ≡ facts_of all.old.items ++ facts_of facts.now) }
{
    for fact in facts {
        let copy = copied(alloc, fact)?;
        all.push(copy)?;
    }
    Ok(())
}

/// The facts of all lemmas, in order.
///
/// # Errors
///
/// `Memory` where an allocation fails.
pub(crate) fn all_stated(alloc: Global, kept: &StatedFacts) -> Result<Vec<Fact>, Memory>
    ensures { IfOk result (λ facts. facts_of facts.items ≡ all_facts (past_of kept.now)) }
{
    let mut all = Vec::new(alloc);
    for position in &kept.lemmas {
        push_copies(alloc, &mut all, facts_at(kept, *position))?;
    }
    Ok(all)
}
