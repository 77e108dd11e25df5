//! Computes the facts that are kept: lists of facts, round by round, up to the fixpoint.

ghost use Rattle.std.specs.Prelude.{◌≡◌, ◌≢◌, ◌++◌, ℕ, slice_get, [], nat_eq, if◌then◌else◌, IfOk};
ghost use Rattle.its_model.specs.Valid.{IsValid};
ghost use Rattle.its_model.specs.Views.{program_of};
ghost use Rattle.cert_types.specs.Composing.{AreRowsOf};
ghost use Rattle.location_facts.specs.Faults.{proofs_of, AreProved};
ghost use Rattle.location_facts.specs.Due.{AreShownEarlier, lists_of, listed_at, proofs_in, elements_in};
ghost use Rattle.location_facts.specs.Implied.{AreInOrder, AreProofsUnder, IsPushed};
ghost use Rattle.location_facts.specs.Kept.{IsNext, AreKept};
ghost use Rattle.location_facts.specs.Pointed.{ArePointed};
ghost use Rattle.location_facts.specs.Tables.{AreRulesInto};

use crate::candidates::all_candidates;
use crate::elements::Element;
use crate::fact::{FactProof, LocFact, LocFacts};
use crate::rules::{Search, due_rules, rules_under};
use crate::shown::{CandidateFacts, EarlierProofs, FactVerdict, proofs_under};
use crate::tables::rules_by_symbol;
use guard_prep::RuleRows;
use its_model::Program;
use poly_terms::Memory;
use std::alloc::Global;
use std::mem;

/// The facts that are kept within a number of pivots, with faultless proofs. This is a greatest fixpoint (as in
/// Houdini): start from all candidates; in each round drop every fact that some rule into its symbol doesn't imply
/// under the current list, until none is dropped. The answers of a rule remain valid while the facts at its source are
/// unchanged.
///
/// The first round asks for each rule whether its combined rows have no point and, if they may have one, which facts at
/// its target follow from them: one linear program each. A later round asks only for the rules at whose source a fact
/// was dropped, and doesn't ask whether a rule has a point if it has shown one. A fact refuted by a known point or ray
/// isn't queried. For programs with many rules and places these are still many linear programs.
///
/// # Errors
///
/// `Memory` if an allocation fails, or if the number of a symbol has more than 32 bits.
pub fn facts(
    alloc: Global,
    p: &Program,
    prepared_rules: &[RuleRows],
    pivots: u32,
) -> Result<LocFacts, Memory>
    requires valid { IsValid (program_of p.now) }
    requires rows { AreRowsOf prepared_rules.now (program_of p.now) }
    ensures kept { IfOk result (λ f. AreKept (program_of p.now) pivots f.kept.items) }
    ensures proved { IfOk result (λ f. AreProved (program_of p.now) f.kept.items (proofs_of f)) }
{
    let into = rules_by_symbol(alloc, p)?;
    let search = Search {
        program: p,
        prepared_rules,
        pivots,
        into: &into,
    };
    let candidates = all_candidates(alloc, p)?;
    let all = vec![in alloc; true; p.rules.len()]?;
    let mut points = vec![in alloc; false; p.rules.len()]?;
    let all_facts = CandidateFacts {
        facts: &candidates,
        proofs: Vec::new(alloc),
    };
    let mut found = next_facts(alloc, search, all_facts, &all, &mut points)?;
    let mut kept = candidates;
    while found.kept.len() < kept.len() {
        let due = due_rules(alloc, p, &kept, &found.kept)?;
        let LocFacts { kept: now, proofs } = found;
        let kept_so_far = CandidateFacts {
            facts: &now,
            proofs,
        };
        found = next_facts(alloc, search, kept_so_far, &due, &mut points)?;
        kept = now;
    }
    Ok(found)
}

// The facts of a list that every rule into their symbol implies under it, with proofs over the rows under that list.
// Only due rules are queried, and only about facts that no known point or ray refutes. A marked rule isn't asked for a
// point, since it has one, and a rule that shows a point is marked. The earlier answers of the other rules remain
// valid.
fn next_facts(
    alloc: Global,
    search: Search,
    listed: CandidateFacts,
    due: &[bool],
    points: &mut Vec<bool>,
) -> Result<LocFacts, Memory>
    requires valid { IsValid (program_of search.program.now) }
    requires rows { AreRowsOf search.prepared_rules.now (program_of search.program.now) }
    requires into { AreRulesInto (program_of search.program.now) search.into.now }
    requires ordered { AreInOrder (program_of search.program.now) listed.facts.now }
    requires shown { AreShownEarlier (program_of search.program.now) search.pivots due.now listed.facts.now
        (lists_of listed.proofs.items) }
    requires points { ArePointed (program_of search.program.now) listed.facts.now points.old.items }
    ensures next { IfOk result (λ f.
        IsNext (program_of search.entry.program.now) search.entry.pivots listed.entry.facts.now f.kept.items) }
    ensures proofs { IfOk result (λ f.
        AreProofsUnder (program_of search.entry.program.now) listed.entry.facts.now f.kept.items (proofs_of f)) }
    ensures points { IfOk result (λ _.
        ArePointed (program_of search.entry.program.now) listed.entry.facts.now points.new.items) }
{
    let CandidateFacts {
        facts,
        proofs: mut earlier_proofs,
    } = listed;
    let rules_under_facts = rules_under(alloc, search, facts, due, points)?;
    let mut kept = Vec::new(alloc);
    let mut proofs = Vec::new(alloc);
    let mut elements = Vec::new(alloc);
    let mut symbol = 0;
    for i in 0..facts.len() {
        let fact = facts[i];
        begin_symbol(&mut elements, symbol, fact.symbol);
        symbol = fact.symbol;
        let before = taken_proofs(alloc, &mut earlier_proofs, i);
        let earlier = EarlierProofs {
            fact,
            proofs: before,
        };
        let verdict = proofs_under(alloc, search, &rules_under_facts, &elements, earlier)?;
        push_verdict(&mut kept, &mut proofs, &mut elements, fact, verdict)?;
    }
    Ok(LocFacts { kept, proofs })
}

// Clears the elements when a fact has another symbol than the one before it: they belong to rules that don't lead
// there.
fn begin_symbol(elements: &mut Vec<Element>, before: u32, symbol: u32)
    ensures { elements.new.items ≡ (if nat_eq before symbol then elements.old.items else []) }
{
    if before != symbol {
        elements.clear();
    }
}

// Takes the proofs at a position; none if there are none.
#[tactic(auto, using(crate::proofs::DueRules::listed_there, crate::proofs::DueRules::listed_missing))]
fn taken_proofs(alloc: Global, proofs: &mut Vec<Vec<FactProof>>, i: usize) -> Vec<FactProof>
    ensures taken { result.items ≡ listed_at (lists_of proofs.old.items) i }
    ensures others { (j : ℕ) → j ≢ i → slice_get proofs.new.items j ≡ slice_get proofs.old.items j }
{
    match proofs.get_mut(i) {
        Some(list) => mem::replace(list, Vec::new(alloc)),
        None => Vec::new(alloc),
    }
}

// Appends a fact with its proofs, if it has them, or else the point or ray that refutes it, if there is one.
fn push_verdict(
    kept: &mut Vec<LocFact>,
    proofs: &mut Vec<Vec<FactProof>>,
    elements: &mut Vec<Element>,
    fact: LocFact,
    verdict: FactVerdict,
) -> Result<(), Memory>
    ensures facts { IfOk result (λ _.
        IsPushed fact (proofs_in verdict) kept.old.items kept.new.items proofs.old.items proofs.new.items) }
    ensures elements { IfOk result (λ _. elements.new.items ≡ elements.old.items ++ elements_in verdict) }
{
    match verdict {
        FactVerdict::Shown(list) => {
            kept.push(fact)?;
            proofs.push(list)?;
            Ok(())
        }
        FactVerdict::Refuted(element) => {
            elements.push(element)?;
            Ok(())
        }
        FactVerdict::Missed => Ok(()),
    }
}
