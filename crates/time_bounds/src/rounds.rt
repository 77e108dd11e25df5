//! Runs rounds, up to the first that finds nothing new.

ghost use Rattle.std.specs.Prelude.{◌≡◌, length, [], None, replicate, IfOk, OnOk};
ghost use Rattle.bound_derivations.specs.Books.{AreDerivedBounds};
ghost use Rattle.time_bounds.specs.Questions.{AreAnsweredFrom, BelongsTogether, program_in};
ghost use Rattle.time_bounds.specs.Candidates.{AreCandidatesOf};
ghost use Rattle.time_bounds.specs.RoundsMade.{AreMade, AreKeptFor, AreTimesMade, IsRoundMade};

use crate::asking::AnsweredRankQuestion;
use crate::candidates::Candidate;
use crate::context::Context;
use crate::new_derivations::{SplitRules, part_all, take_all};
use crate::sizing::{ComponentAttempt, try_components};
use crate::tried_rules::try_rules;
use bound_derivations::DerivedBounds;
use model::Memory;
use std::alloc::Global;

/// The results of a round: for each rule without a time its query, and for each component what the attempt gave.
#[derive(Drop)]
pub(crate) struct LastRound {
    pub asked: Vec<Option<AnsweredRankQuestion>>,
    pub attempts: Vec<ComponentAttempt>,
}

/// Runs rounds from the derivations before the first. Returns the last round's results for each rule and each
/// component.
pub(crate) fn rounds(
    cx: &Context,
    candidates: &[Candidate],
    derived: &mut DerivedBounds,
) -> Result<LastRound, Memory>
    requires ready { BelongsTogether cx.now }
    requires candidates { AreCandidatesOf (program_in cx.now) cx.now.pivots candidates.now }
    requires made { AreMade cx.now derived.old.derivations.items }
    requires derived { AreDerivedBounds (program_in cx.now) derived.old.table derived.old.derivations.items }
    ensures made { OnOk result (AreMade cx.now derived.new.derivations.items) }
    ensures last { IfOk result (λ kept. IsRoundMade cx.now candidates.now derived.new.derivations.items derived.new.derivations.items
        kept) }
    ensures derived { OnOk result (AreDerivedBounds (program_in cx.now) derived.new.table derived.new.derivations.items) }
{
    let mut kept = nothing_kept(cx.alloc, cx.program.rules.len())?;
    loop {
        let before = derived.derivations.len();
        kept = next_round(cx, candidates, derived, kept)?;
        if derived.derivations.len() == before {
            return Ok(kept);
        }
    }
}

// A round: of times, and then of sizes with the new times.
fn next_round(
    cx: &Context,
    candidates: &[Candidate],
    derived: &mut DerivedBounds,
    kept: LastRound,
) -> Result<LastRound, Memory>
    requires ready { BelongsTogether cx.now }
    requires candidates { AreCandidatesOf (program_in cx.now) cx.now.pivots candidates.now }
    requires made { AreMade cx.now derived.old.derivations.items }
    requires kept { AreKeptFor cx.now candidates.now derived.old.derivations.items kept }
    requires derived { AreDerivedBounds (program_in cx.now) derived.old.table derived.old.derivations.items }
    ensures round { IfOk result (λ next. IsRoundMade cx.now candidates.now derived.old.derivations.items derived.new.derivations.items
        next) }
    ensures derived { OnOk result (AreDerivedBounds (program_in cx.now) derived.new.table derived.new.derivations.items) }
{
    let LastRound { asked, attempts } = kept;
    let asked = times_of_round(cx, derived, asked)?;
    let attempts = try_components(cx, candidates, &attempts, derived)?;
    Ok(LastRound { asked, attempts })
}

// Adds the times of a round to the derived bounds. Returns the queries of the rules without a time.
fn times_of_round(
    cx: &Context,
    derived: &mut DerivedBounds,
    before: Vec<Option<AnsweredRankQuestion>>,
) -> Result<Vec<Option<AnsweredRankQuestion>>, Memory>
    requires ready { BelongsTogether cx.now }
    requires made { AreMade cx.now derived.old.derivations.items }
    requires one_each { length before.items ≡ length cx.now.program.now.rules.items }
    requires kept { AreAnsweredFrom (program_in cx.now) cx.now.pivots cx.now.empties.items 1 before.items }
    requires derived { AreDerivedBounds (program_in cx.now) derived.old.table derived.old.derivations.items }
    ensures times { IfOk result (λ asked. AreTimesMade cx.now derived.old.derivations.items derived.new.derivations.items asked.items) }
    ensures derived { OnOk result (AreDerivedBounds (program_in cx.now) derived.new.table derived.new.derivations.items) }
{
    let tries = try_rules(cx, &derived.table, before)?;
    let parts = part_all(cx.alloc, tries)?;
    let SplitRules { asked, derivations } = parts;
    take_all(cx, derived, derivations)?;
    Ok(asked)
}

// The results before the first round: no query of any rule, and no attempt at any component.
fn nothing_kept(alloc: Global, count: usize) -> Result<LastRound, Memory>
    ensures asked { IfOk result (λ kept. kept.asked.items ≡ replicate count None) }
    ensures attempts { IfOk result (λ kept. kept.attempts.items ≡ []) }
{
    let asked = nothing_asked(alloc, count)?;
    let attempts = Vec::new(alloc);
    Ok(LastRound { asked, attempts })
}

// No query of any rule.
fn nothing_asked(alloc: Global, count: usize) -> Result<Vec<Option<AnsweredRankQuestion>>, Memory>
    ensures { IfOk result (λ asked. asked.items ≡ replicate count None) }
{
    let mut asked = Vec::new(alloc);
    for _ in 0..count {
        asked.push(None)?;
    }
    Ok(asked)
}
