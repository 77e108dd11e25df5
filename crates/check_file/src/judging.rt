//! Checks a lemma, node by node.

ghost use Rattle.std.specs.Prelude.{◌≡◌, ◌+◌, ◌<◌, ◌^◌, ℕ, List, length, map, MatchResult};
ghost use Rattle.std.specs.List.{AllByRecursion};
ghost use Rattle.check_file.specs.Children.{children_of, nodes_in};
ghost use Rattle.cert_context.specs.CheckContexts.{IsCheckContext, program, setting};
ghost use Rattle.check_file.specs.Judging.{AreWhole, IsKeptOf, IsNodeOf, IsWhole};
ghost use Rattle.cert_context.specs.NodeAnswers.{Refuses};
ghost use Rattle.check_file.specs.Refusing.{RefusesAmong};
ghost use Rattle.cert_context.specs.Statements.{AreBased, facts_by, first_by, past_of};
ghost use Rattle.cert_types.specs.Views.{facts_of as facts_in_order, proof_of};
ghost use Rattle.cert_types.specs.cert_rules.Acceptance.{facts_of};
ghost use Rattle.cert_types.specs.cert_rules.Checks.{checks_of};
ghost use Rattle.cert_types.specs.cert_rules.Nodes.{Cite, Proof as PlainProof};
ghost use Rattle.cert_types.specs.cert_rules.Numbering.{nodes_of};
ghost use Rattle.cert_types.specs.cert_rules.Setting.{Setting};
ghost use Rattle.model.specs.Programs.{Program};
ghost use Rattle.cert_context.specs.Statements.{owned_by};

use crate::by_key::{charged, looped, ranked, spread};
use crate::children::children;
use crate::emptiness::empty_facts;
use crate::refusal::{TreeFault, at_node};
use crate::unreached::unreached_facts;
use crate::unused::never_facts;
use crate::weakening::weaker_facts;
use cert_context::{CheckContext, NodeFault, PremiseFacts, StatedFacts, facts_in};
use cert_types::{Fact, Proof, Reason};
use std::alloc::Global;

/// A lemma, or a part of one, that was accepted.
#[derive(Drop)]
pub(crate) struct Judged {
    /// The facts that it states.
    pub stated: PremiseFacts,
    /// The number of nodes checked so far.
    pub count: u32,
}

/// Parts of a lemma that were accepted.
#[derive(Drop)]
pub(crate) struct Joined {
    /// The facts of each part, in order.
    pub uses: Vec<PremiseFacts>,
    /// The number of nodes checked so far.
    pub count: u32,
}

/// Checks a lemma, or a part of one, given the facts of the lemmas before, after `before` nodes of the lemma have been
/// checked.
///
/// # Errors
///
/// `Refused` with the first node that isn't accepted, by its number, and the first reason; `Memory` where an allocation
/// fails.
#[cycle(judge)]
pub(crate) fn judge(
    alloc: Global,
    context: &CheckContext,
    kept: &StatedFacts,
    proof: &Proof,
    before: u32,
) -> Result<Judged, TreeFault>
    requires context { IsCheckContext context.now }
    requires kept { (lemmas : List PlainProof) × IsKeptOf (program context.now) (setting context.now) lemmas kept.now }
    requires few { before + length (nodes_of (proof_of proof.now)) < 2 ^ 32 }
    ensures { MatchResult result
        (λ judged. IsWhole (setting context.now) kept.now (proof_of proof.now) before judged)
        (λ fault. RefusesAmong (setting context.now) (past_of kept.now) (nodes_of (proof_of proof.now)) before fault) }
{
    match judge_all(alloc, context, kept, children(proof), before) {
        Ok(joined) => match judge_node(alloc, context, kept, proof, &joined.uses) {
            Ok(stated) => Ok(Judged {
                stated,
                count: joined.count + 1,
            }),
            Err(fault) => Err(at_node(fault, joined.count + 1)),
        },
        Err(fault) => Err(fault),
    }
}

// Checks parts of a lemma, in order.
#[cycle(judge)]
fn judge_all(
    alloc: Global,
    context: &CheckContext,
    kept: &StatedFacts,
    proofs: &[Proof],
    before: u32,
) -> Result<Joined, TreeFault>
    requires context { IsCheckContext context.now }
    requires kept { (lemmas : List PlainProof) × IsKeptOf (program context.now) (setting context.now) lemmas kept.now }
    requires few { before + length (nodes_in (map proof_of proofs.now)) < 2 ^ 32 }
    ensures { MatchResult result
        (λ joined. AreWhole (setting context.now) kept.now (map proof_of proofs.now) before joined)
        (λ fault. RefusesAmong (setting context.now) (past_of kept.now) (nodes_in (map proof_of proofs.now)) before
        fault) }
{
    let mut uses = Vec::new(alloc);
    let mut count = before;
    for proof in proofs {
        match judge(alloc, context, kept, proof, count) {
            Ok(judged) => {
                count = judged.count;
                uses.push(judged.stated)?;
            }
            Err(fault) => return Err(fault),
        }
    }
    Ok(Joined { uses, count })
}

// The facts of a node whose premises are accepted.
fn judge_node(
    alloc: Global,
    context: &CheckContext,
    kept: &StatedFacts,
    proof: &Proof,
    uses: &[PremiseFacts],
) -> Result<PremiseFacts, NodeFault>
    requires context { IsCheckContext context.now }
    requires kept { (lemmas : List PlainProof) × IsKeptOf (program context.now) (setting context.now) lemmas kept.now }
    requires uses { map (facts_by kept.now) uses.now
        ≡ map (facts_of (setting context.now) (past_of kept.now)) (children_of (proof_of proof.now)) }
    requires based { AllByRecursion AreBased (map (facts_by kept.now) uses.now) }
    ensures { MatchResult result
        (λ used. IsNodeOf (setting context.now) kept.now (proof_of proof.now) used)
        (λ fault. Refuses (checks_of (setting context.now) (past_of kept.now) (proof_of proof.now)) fault) }
{
    match proof {
        Proof::Cite(lemma) => cited(kept, *lemma),
        Proof::Start => Ok(PremiseFacts::StatedFacts(0)),
        Proof::Empty(node) => owned(empty_facts(alloc, context, node)),
        Proof::Unreached(node) => owned(unreached_facts(alloc, context, kept, node.rule, uses)),
        Proof::Never(_) => owned(never_facts(alloc, context.program, first(kept, uses))),
        Proof::Weaken(_, bound) => owned(weaker_facts(
            alloc,
            context.program,
            first(kept, uses),
            bound,
        )),
        Proof::Rank(node) => owned(ranked(alloc, context, kept, node, uses)),
        Proof::Spread(node) => owned(spread(alloc, context, kept, node, uses)),
        Proof::Cycle(node) => owned(looped(alloc, context, kept, node, uses)),
        Proof::Cost(node) => owned(charged(alloc, context, kept, node, uses)),
    }
}

// The facts of an earlier lemma.
fn cited(kept: &StatedFacts, lemma: u32) -> Result<PremiseFacts, NodeFault>
    requires { (p : Program) × (s : Setting) × (lemmas : List PlainProof) × IsKeptOf p s lemmas kept.now }
    ensures { (s : Setting) → MatchResult result
        (λ used. IsNodeOf s kept.now (Cite lemma) used)
        (λ fault. Refuses (checks_of s (past_of kept.now) (Cite lemma)) fault) }
{
    if lemma == 0 {
        return Err(NodeFault::Refused(Reason::Shape));
    }
    match kept.lemmas.get(lemma as usize - 1) {
        Some(position) => Ok(PremiseFacts::StatedFacts(*position)),
        None => Err(NodeFault::Refused(Reason::Shape)),
    }
}

// Facts of a node as its own.
fn owned(facts: Result<Vec<Fact>, NodeFault>) -> Result<PremiseFacts, NodeFault>
    ensures { result ≡ owned_by facts }
{
    match facts {
        Ok(own) => Ok(PremiseFacts::Own(own)),
        Err(fault) => Err(fault),
    }
}

// The facts of the first premise; none if there is none.
fn first<'a>(kept: &'a StatedFacts, uses: &'a [PremiseFacts]) -> &'a [Fact]
    ensures { facts_in_order result.now ≡ first_by kept.now uses.now }
{
    match uses.first() {
        Some(used) => facts_in(kept, used),
        None => &[],
    }
}
