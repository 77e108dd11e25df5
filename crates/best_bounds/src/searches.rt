//! Looks for files by searches of several kinds: of those that the checker accepts the best one, and the best statement
//! on each subject.

ghost use Rattle.std.specs.Prelude.{IfOk};
ghost use Rattle.its_model.specs.Valid.{IsValid};
ghost use Rattle.its_model.specs.Views.{program_of};
ghost use Rattle.best_bounds.specs.Found.{IsFoundFor, IsAcceptedFileFor};

use crate::acceptance::{file_if_accepted, found_before_search};
use crate::candidates::candidate_file;
use crate::comparing::{Comparison, Margin};
use crate::found_bounds::{AcceptedFile, Found};
use crate::merging::merged;
use crate::refinements::{Refined, Refinement, refine};
use crate::scoring::{better_file, has_all_times, has_linear_times};
use claims_check::Statement;
use facts_proof::{FactsProof, analysis_proof};
use its_model::Program;
use poly_terms::Memory;
use signed_values::comparison_starts;
use std::alloc::Global;

/// How much work the call may do for each asked pivot, as numbers that pivots go through.
const WORK_PER_PIVOT: u64 = 100_000;

/// For each `RULES_FOR_MORE` rules of the program it may do as much again.
const RULES_FOR_MORE: u64 = 40;

/// The most rules of a program that is split for the sake of linear times alone.
const RULES_FOR_LINEAR: usize = 12;

/// The best proof file that is found for a program, with what its claims state, and the best statement on each subject
/// among those of all files that the checker accepted. The pivots of all searches together may go through about 100,000
/// numbers for each of `pivots` pivots, and through as many again for each 40 rules, each search but the last one through
/// half of what is left. The searches are over the program itself, over copies of its symbols with facts, and, while some
/// rule has no time, or a time isn't linear and there are at most 12 rules, over copies that are split by guards, or by the
/// last rule, unless these have more than 300 rules, or more than eight times as many as the program. Where some rule still
/// has no time, the bounds that the analysis of the program itself finds within `pivots` pivots count, too. A file is better if
/// it has more bounds on rules and on all steps, or as many and lesser ones at the start values at which bounds are compared,
/// or equal ones and more on values. Where each rule has a time, a bound of a split program, which is longer to read, counts
/// as lesser only if its value is less by more than a tenth, or isn't greater, and its degree is lower.
///
/// # Errors
///
/// `Memory` where an allocation fails.
pub fn find(alloc: Global, p: &Program, pivots: u32) -> Result<Found, Memory>
    requires { IsValid (program_of p.now) }
    ensures { IfOk result (λ found. IsFoundFor (program_of p.now) found) }
{
    let starts = comparison_starts(alloc, p.start_names.len())?;
    let found = found_by_searches(alloc, p, pivots, &starts)?;
    if has_all_times(p, &found.best) {
        return Ok(found);
    }
    with_analysis(alloc, p, found, pivots, &starts)
}

// What the searches find, one after another.
fn found_by_searches(
    alloc: Global,
    p: &Program,
    pivots: u32,
    starts: &[Vec<i128>],
) -> Result<Found, Memory>
    requires { IsValid (program_of p.now) }
    ensures { IfOk result (λ found. IsFoundFor (program_of p.now) found) }
{
    let mut work = allowed_work(p.rules.len(), pivots);
    let start = found_before_search(alloc, p);
    let plain = with_search(
        alloc,
        p,
        start,
        SearchPart::new(Refinement::Itself, 2),
        starts,
        &mut work,
    )?;
    let with_facts = with_search(
        alloc,
        p,
        plain,
        SearchPart::new(Refinement::Facts, 2),
        starts,
        &mut work,
    )?;
    if needs_no_split(p, &with_facts.best) {
        return Ok(with_facts);
    }
    let by_guards = with_search(
        alloc,
        p,
        with_facts,
        SearchPart::new(Refinement::Guards, 2),
        starts,
        &mut work,
    )?;
    if needs_no_split(p, &by_guards.best) {
        return Ok(by_guards);
    }
    with_search(
        alloc,
        p,
        by_guards,
        SearchPart::new(Refinement::LastRule, 1),
        starts,
        &mut work,
    )
}

// Whether no further split program is searched: each rule has a time, and the times are linear in the start values unless
// the program has more than 12 rules.
fn needs_no_split(p: &Program, stated: &[Statement]) -> bool {
    has_all_times(p, stated) && (p.rules.len() > RULES_FOR_LINEAR || has_linear_times(stated))
}

// How much work a call on a program with this many rules may do.
fn allowed_work(rules: usize, pivots: u32) -> u64 {
    let shares = (rules as u64 / RULES_FOR_MORE).saturating_add(1);
    u64::from(pivots)
        .saturating_mul(WORK_PER_PIVOT)
        .saturating_mul(shares)
}

// A search, and the part of the work that is left it may do: one of `parts` equal parts, at least 1.
#[derive(Clone, Copy)]
struct SearchPart {
    kind: Refinement,
    parts: u64,
}

impl SearchPart {
    // A search with its part.
    fn new(kind: Refinement, parts: u64) -> SearchPart {
        SearchPart { kind, parts }
    }

    // The part of some work.
    fn part_of_work(self, work: u64) -> u64 {
        work.checked_div(self.parts).unwrap_or(0)
    }
}

// The bounds so far, improved by those of the analysis of the program itself, if the checker accepts its file.
#[tactic(auto, using(crate::proofs::FoundFiles::by_analysis))]
fn with_analysis(
    alloc: Global,
    p: &Program,
    known: Found,
    pivots: u32,
    starts: &[Vec<i128>],
) -> Result<Found, Memory>
    requires valid { IsValid (program_of p.now) }
    requires known { IsFoundFor (program_of p.now) known }
    ensures { IfOk result (λ found. IsFoundFor (program_of p.now) found) }
{
    match analysis_proof(alloc, p, pivots)? {
        None => Ok(known),
        Some(FactsProof { file, stated }) => {
            let comparison = Comparison {
                starts,
                margin: Margin::Any,
            };
            with_file(alloc, p, known, AcceptedFile { file, stated }, comparison)
        }
    }
}

// The bounds so far, improved by those of one search over a refined program, if the checker accepts its file. `work` says
// how much work may be done, and then how much is left.
fn with_search(
    alloc: Global,
    p: &Program,
    known: Found,
    search_part: SearchPart,
    starts: &[Vec<i128>],
    work: &mut u64,
) -> Result<Found, Memory>
    requires valid { IsValid (program_of p.now) }
    requires known { IsFoundFor (program_of p.now) known }
    ensures { IfOk result (λ found. IsFoundFor (program_of p.now) found) }
{
    let mut part = search_part.part_of_work(*work);
    let others = (*work).saturating_sub(part);
    let section = match refine(alloc, p, search_part.kind)? {
        Refined::Itself => None,
        Refined::By(section) => Some(section),
        Refined::TooLarge => return Ok(known),
    };
    let found = candidate_file(alloc, p, section, &mut part)?;
    *work = others.saturating_add(part);
    match found {
        None => Ok(known),
        Some(file) => match file_if_accepted(alloc, p, file)? {
            Some(file) => {
                let comparison = Comparison {
                    starts,
                    margin: margin_of(p, search_part.kind, &known.best),
                };
                with_file(alloc, p, known, file, comparison)
            }
            None => Ok(known),
        },
    }
}

// By how much a bound of a refined program has to be less than a known one: clearly where it is split though each rule
// has a time.
fn margin_of(p: &Program, kind: Refinement, known: &[Statement]) -> Margin {
    let is_split = kind == Refinement::Guards || kind == Refinement::LastRule;
    if is_split && has_all_times(p, known) {
        Margin::Clear
    } else {
        Margin::Any
    }
}

// The bounds so far, improved by those of a further file: the better one of the best file so far and that one, and the best
// statement on each subject of the statements so far and of the file's.
#[tactic(auto, using(crate::proofs::FoundFiles::with_file_found))]
fn with_file(
    alloc: Global,
    p: &Program,
    known: Found,
    file: AcceptedFile,
    comparison: Comparison<'_>,
) -> Result<Found, Memory>
    requires known { IsFoundFor (program_of p.now) known }
    requires file { IsAcceptedFileFor (program_of p.now) file }
    ensures { IfOk result (λ found. IsFoundFor (program_of p.now) found) }
{
    let best = merged(alloc, &known.best, &file.stated, comparison)?;
    let better = better_file(known.file, file, comparison);
    Ok(Found { file: better, best })
}
