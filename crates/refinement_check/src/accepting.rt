//! Accepts or refuses a section, stage by stage.

ghost use Rattle.std.specs.Prelude.{◌≡◌, ◌&&◌, map, option_map, MatchResult, IfOk, None};
ghost use Rattle.std.specs.List.{list_all};
ghost use Rattle.cert_rules.specs.Tests.{first_failing};
ghost use Rattle.refined_programs.specs.its_model.Valid.{IsValid};
ghost use Rattle.refined_programs.specs.its_model.Views.{program_of};
ghost use Rattle.refined_programs.specs.Ends.{end_of};
ghost use Rattle.refined_programs.specs.Views.{copy_of, annotated_of};
ghost use Rattle.section_checks.specs.Faults.{IsAccepted};
ghost use Rattle.section_decide.specs.Deciding.{is_end_within as is_end_within_by};
ghost use Rattle.section_decide.specs.Deciding.{limit_test, limit_tests, certificate_tests, first_in_stages, or_then};
ghost use Rattle.section_decide.specs.Deciding.{is_within_limits as within_limits, section_fault as fault_by_tests};
ghost use Rattle.refinement_check.specs.Views.{SaysFirst, fault_of, numbered_end_of, placed, obligation_of};
ghost use Rattle.refinement_check.specs.Stages.{shape_fault_of, ends_fault_of, ends_fault_by, rules_fault_by};
ghost use Rattle.refinement_check.specs.Stages.{guards_fault_by};

use crate::certificates::{Obligation, obligations, unmet};
use crate::ends::{NumberedEnd, all_ends, wrong_rules, wrong_shape};
use crate::fault::{AcceptError, SectionFault};
use crate::limits::is_within_limits;
use crate::shape::shape_fault;
use its_model::Program;
use poly_terms::Memory;
use refined_programs::{Section, SymbolCopy, rule_along, rule_at};
use std::alloc::Global;

/// Accepts a section of a valid program exactly if all checks pass, stage by stage: the start; the facts of copies; the
/// branches; their tests; the shape of the ends of paths; the number of rules; their limits; and the certificates, end
/// by end. Then bounds of the program that the section spells are bounds of the program
/// (`accepted_sections_keep_bounds`).
///
/// # Errors
///
/// `Wrong` with the first fault; `Memory` where an allocation fails.
#[tactic(auto, using(crate::proofs::Stages::accepted_by, crate::proofs::Stages::first_by))]
pub fn accept(alloc: Global, p: &Program, section: &Section) -> Result<(), AcceptError>
    requires valid { IsValid (program_of p.now) }
    ensures { MatchResult result (λ done. IsAccepted (program_of p.now) (annotated_of section.now))
        (SaysFirst (program_of p.now) (annotated_of section.now)) }
{
    match section_fault(alloc, p, section) {
        Ok(None) => Ok(()),
        Ok(Some(fault)) => Err(AcceptError::Wrong(fault)),
        Err(_) => Err(AcceptError::Memory),
    }
}

// The first fault of a section, if it has one.
#[tactic(auto, using(crate::proofs::Stages::in_halves))]
fn section_fault(
    alloc: Global,
    p: &Program,
    section: &Section,
) -> Result<Option<SectionFault>, Memory>
    requires valid { IsValid (program_of p.now) }
    ensures { IfOk result
        (λ found. option_map fault_of found ≡ fault_by_tests (program_of p.now) (annotated_of section.now)) }
{
    fault_by_halves(alloc, p, section)
}

// The first fault of the section's shape, or else of its ends.
#[tactic(auto, using(crate::proofs::Stages::or_first, crate::proofs::Stages::ok_second))]
fn fault_by_halves(
    alloc: Global,
    p: &Program,
    section: &Section,
) -> Result<Option<SectionFault>, Memory>
    requires valid { IsValid (program_of p.now) }
    ensures { IfOk result (λ found. option_map fault_of found
        ≡ or_then (shape_fault_of (program_of p.now) (annotated_of section.now))
        (ends_fault_of (program_of p.now) (annotated_of section.now))) }
{
    match shape_fault(alloc, p, section)? {
        Some(fault) => Ok(Some(fault)),
        None => ends_fault(alloc, p, section),
    }
}

// The first fault of the ends: of their shape, number, limits or certificates.
fn ends_fault(alloc: Global, p: &Program, section: &Section) -> Result<Option<SectionFault>, Memory>
    requires valid { IsValid (program_of p.now) }
    ensures { IfOk result
        (λ found. option_map fault_of found ≡ ends_fault_of (program_of p.now) (annotated_of section.now)) }
{
    let ends = all_ends(alloc, section)?;
    fault_of_ends(alloc, p, &section.copies, &ends)
}

// The first fault of these ends.
#[tactic(auto, using(crate::proofs::Stages::or_first, crate::proofs::Stages::ok_second))]
fn fault_of_ends(
    alloc: Global,
    p: &Program,
    copies: &[SymbolCopy],
    ends: &[NumberedEnd],
) -> Result<Option<SectionFault>, Memory>
    requires valid { IsValid (program_of p.now) }
    ensures { IfOk result (λ found. option_map fault_of found ≡ ends_fault_by (map copy_of copies.now)
        (map (placed (program_of p.now)) (map numbered_end_of ends.now))) }
{
    match wrong_shape(p, copies, ends) {
        Some(fault) => Ok(Some(fault)),
        None => fault_of_rules(alloc, p, copies, ends),
    }
}

// The first fault of the number, the limits or the certificates of these ends.
#[tactic(auto, using(crate::proofs::Stages::or_first, crate::proofs::Stages::ok_second))]
fn fault_of_rules(
    alloc: Global,
    p: &Program,
    copies: &[SymbolCopy],
    ends: &[NumberedEnd],
) -> Result<Option<SectionFault>, Memory>
    requires valid { IsValid (program_of p.now) }
    ensures { IfOk result (λ found. option_map fault_of found ≡ rules_fault_by (map copy_of copies.now)
        (map (placed (program_of p.now)) (map numbered_end_of ends.now))) }
{
    match wrong_rules(alloc, p, ends)? {
        Some(fault) => Ok(Some(fault)),
        None => fault_of_guards(alloc, p, copies, ends),
    }
}

// The first fault of the limits or the certificates of these ends.
#[tactic(auto, using(crate::proofs::Stages::or_first, crate::proofs::Stages::ok_second))]
fn fault_of_guards(
    alloc: Global,
    p: &Program,
    copies: &[SymbolCopy],
    ends: &[NumberedEnd],
) -> Result<Option<SectionFault>, Memory>
    requires valid { IsValid (program_of p.now) }
    ensures { IfOk result (λ found. option_map fault_of found ≡ guards_fault_by (map copy_of copies.now)
        (map (placed (program_of p.now)) (map numbered_end_of ends.now))) }
{
    match over_limit(alloc, p, copies, ends)? {
        Some(fault) => Ok(Some(fault)),
        None => unmet_end(alloc, p, copies, ends),
    }
}

// The first end whose rule, or one of whose obligations, is over the limits.
fn over_limit(
    alloc: Global,
    p: &Program,
    copies: &[SymbolCopy],
    ends: &[NumberedEnd],
) -> Result<Option<SectionFault>, Memory>
    ensures { IfOk result (λ found. option_map fault_of found ≡ first_failing (limit_tests (map copy_of copies.now) 1
        (map (placed (program_of p.now)) (map numbered_end_of ends.now)))) }
{
    for (i, end) in ends.iter().enumerate() {
        let passes = is_end_within(alloc, p, copies, i as u64 + 1, end)?;
        if !passes {
            return Ok(Some(SectionFault::Limit { end: i as u64 + 1 }));
        }
    }
    Ok(None)
}

// Whether the rule of an end and those of its obligations are within the limits.
fn is_end_within(
    alloc: Global,
    p: &Program,
    copies: &[SymbolCopy],
    number: u64,
    end: &NumberedEnd,
) -> Result<bool, Memory>
    ensures { IfOk result (λ within. within
        ≡ (limit_test (map copy_of copies.now) number (placed (program_of p.now) (numbered_end_of end.now))).passes) }
{
    let own = is_own_within(alloc, p, end)?;
    if own {
        let found = obligations(alloc, p, copies, number, end)?;
        are_within(alloc, &found)
    } else {
        Ok(false)
    }
}

// Whether the rule of an end is within the limits, if there is one.
fn is_own_within(alloc: Global, p: &Program, end: &NumberedEnd) -> Result<bool, Memory>
    ensures { IfOk result (λ within. within
        ≡ is_end_within_by (placed (program_of p.now) (numbered_end_of end.now)).rule (end_of end.now.end)) }
{
    match rule_at(p, end.rule) {
        None => Ok(true),
        Some(rule) => is_within_limits(alloc, &rule_along(alloc, rule, &end.end.atoms)?),
    }
}

// Whether the rules of obligations are within the limits.
fn are_within(alloc: Global, obligations: &[Obligation]) -> Result<bool, Memory>
    ensures { IfOk result
        (λ within. within ≡ list_all (λ o. within_limits o.rule) (map obligation_of obligations.now)) }
{
    for obligation in obligations {
        let within = is_within_limits(alloc, &obligation.rule)?;
        if !within {
            return Ok(false);
        }
    }
    Ok(true)
}

// The first fault of the obligations of all ends.
fn unmet_end(
    alloc: Global,
    p: &Program,
    copies: &[SymbolCopy],
    ends: &[NumberedEnd],
) -> Result<Option<SectionFault>, Memory>
    requires valid { IsValid (program_of p.now) }
    requires within { first_failing (limit_tests (map copy_of copies.now) 1
        (map (placed (program_of p.now)) (map numbered_end_of ends.now))) ≡ None }
    ensures { IfOk result (λ found. option_map fault_of found ≡ first_in_stages (certificate_tests (map copy_of copies.now) 1
        (map (placed (program_of p.now)) (map numbered_end_of ends.now)))) }
{
    for (i, end) in ends.iter().enumerate() {
        let found = obligations(alloc, p, copies, i as u64 + 1, end)?;
        if let Some(fault) = unmet(alloc, i as u64 + 1, &found)? {
            return Ok(Some(fault));
        }
    }
    Ok(None)
}
