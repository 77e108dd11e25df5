//! Analyses a program.

ghost use Rattle.std.specs.Prelude.{IfOk, length};
ghost use Rattle.std.specs.List.{All};
ghost use Rattle.its_model.specs.Valid.{IsValid};
ghost use Rattle.its_model.specs.Views.{program_of};
ghost use Rattle.outcome.specs.Views.{report_of};
ghost use Rattle.outcome.specs.Holding.{ReportHolds, IsReportOn};
ghost use Rattle.outcome.specs.Printing.{HasItsGap, IsPrintableOutcome};
ghost use Rattle.bound_derivations.specs.Books.{AreDerivedBounds};
ghost use Rattle.time_bounds.specs.Analysis.{IsAnalysis};
ghost use Rattle.time_bounds.specs.AnalysisLemmas.{HasLemmas};
ghost use Rattle.time_bounds.specs.Candidates.{AreCandidatesOf};
ghost use Rattle.time_bounds.specs.RuleStatuses.{AreRuleStatuses};
ghost use Rattle.time_bounds.specs.ProgramSearches.{searches_of_program};
ghost use Rattle.time_bounds.specs.Questions.{BelongsTogether, program_in};
ghost use Rattle.time_bounds.specs.RoundsMade.{AreMade, IsRoundMade};
ghost use Rattle.time_bounds.specs.Whys.{ReasonsAreTrue};

use crate::beginning::first_derivations;
use crate::candidates::{Candidate, candidates};
use crate::context::{Context, context_of};
use crate::costing::{CostsAndLemmas, cost_entries};
use crate::new_derivations::take_all;
use crate::reasons::{TimesAndGaps, time_entries};
use crate::rounds::{LastRound, rounds};
use crate::rule_statuses::{RuleStatus, rule_statuses};
use crate::size_reasons::size_entries;
use crate::totals::total;
use bound_derivations::{DerivedBounds, derived_bounds_at_start, lemmas};
use its_model::Program;
use model::Memory;
use outcome::Outcome;
use std::alloc::Global;

/// Analyses a program, where each linear program may take this many pivots: for each rule a time or why there is none,
/// for each rule with a cost a bound on what its steps cost or why there is none, and for each place after it a size or
/// why there is none; the total, where what each rule spends has a bound; the lemmas that state them, and the gaps.
///
/// # Errors
///
/// `Memory` where an allocation fails.
pub fn analyse(alloc: Global, p: &Program, pivots: u32) -> Result<Outcome, Memory>
    requires { IsValid (program_of p.now) }
    ensures found { IfOk result (λ o. IsAnalysis (program_of p.now) pivots (report_of o)) }
    ensures holds { IfOk result (λ o. ReportHolds (program_of p.now) (report_of o)) }
    ensures reasons { IfOk result (λ o. ReasonsAreTrue (program_of p.now) pivots (report_of o)) }
    ensures fits { IfOk result (λ o. IsReportOn (program_of p.now) (report_of o)) }
    ensures printable { IfOk result (λ o. IsPrintableOutcome (length p.now.start_names.items) o) }
    ensures lemmas { IfOk result (λ o. HasLemmas (program_of p.now) pivots o) }
{
    let cx = context_of(alloc, p, pivots)?;
    analysed(&cx)
}

// Runs the rounds on the program, and builds the outcome from their bounds.
fn analysed(cx: &Context) -> Result<Outcome, Memory>
    requires { BelongsTogether cx.now }
    ensures found { IfOk result (λ o. IsAnalysis (program_in cx.now) cx.now.pivots (report_of o)) }
    ensures gaps { IfOk result (λ o. All (HasItsGap (length o.gaps.items)) o.times.items) }
    ensures lemmas { IfOk result (λ o. HasLemmas (program_in cx.now) cx.now.pivots o) }
{
    let rule_statuses = rule_statuses(cx)?;
    let candidates = candidates(cx, &rule_statuses)?;
    let mut derived = first_derived(cx, &rule_statuses)?;
    let kept = rounds(cx, &candidates, &mut derived)?;
    outcome_from(cx, &candidates, derived, kept)
}

// The derivations before the first round.
fn first_derived(cx: &Context, rule_statuses: &[RuleStatus]) -> Result<DerivedBounds, Memory>
    requires ready { BelongsTogether cx.now }
    requires rule_statuses { AreRuleStatuses (searches_of_program (program_in cx.now) cx.now.pivots) (program_in cx.now) rule_statuses.now }
    ensures made { IfOk result (λ derived. AreMade cx.now derived.derivations.items) }
    ensures derived { IfOk result (λ derived. AreDerivedBounds (program_in cx.now) derived.table derived.derivations.items) }
{
    let mut derived = derived_bounds_at_start(cx.alloc, cx.program)?;
    let first = first_derivations(cx, rule_statuses)?;
    take_all(cx, &mut derived, first)?;
    Ok(derived)
}

// Builds the outcome from the final bounds and the last round's result for each rule and component.
fn outcome_from(
    cx: &Context,
    candidates: &[Candidate],
    derived: DerivedBounds,
    kept: LastRound,
) -> Result<Outcome, Memory>
    requires ready { BelongsTogether cx.now }
    requires candidates { AreCandidatesOf (program_in cx.now) cx.now.pivots candidates.now }
    requires made { AreMade cx.now derived.derivations.items }
    requires last { IsRoundMade cx.now candidates.now derived.derivations.items derived.derivations.items kept }
    requires derived { AreDerivedBounds (program_in cx.now) derived.table derived.derivations.items }
    ensures found { IfOk result (λ o. IsAnalysis (program_in cx.now) cx.now.pivots (report_of o)) }
    ensures gaps { IfOk result (λ o. All (HasItsGap (length o.gaps.items)) o.times.items) }
    ensures lemmas { IfOk result (λ o. HasLemmas (program_in cx.now) cx.now.pivots o) }
{
    let LastRound { asked, attempts } = kept;
    let DerivedBounds { table, derivations } = derived;
    let mut sizes = size_entries(cx.alloc, &table, candidates, &attempts)?;
    sizes.remove(0);
    let TimesAndGaps { times, gaps } = time_entries(cx, &table, asked)?;
    let lemmas = lemmas(cx.alloc, &table, derivations)?;
    let CostsAndLemmas { costs, lemmas } = cost_entries(cx, &table, lemmas)?;
    let total = total(cx.alloc, &times, &costs)?;
    Ok(Outcome {
        times,
        sizes,
        costs,
        total,
        lemmas,
        gaps,
    })
}
