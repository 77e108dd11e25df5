//! The proof files of what the analyses of a program, with its facts and without them, print.

ghost use Rattle.std.specs.Prelude.{◌≡◌, map, Some, IfOk, IfSome};
ghost use Rattle.its_model.specs.Valid.{IsValid};
ghost use Rattle.its_model.specs.Views.{program_of};
ghost use Rattle.outcome.specs.Views.{report_of};
ghost use Rattle.cert_types.specs.Composing.{AreRowsOf};
ghost use Rattle.check_file.specs.Files.{CanBeNumbered};
ghost use Rattle.check_refined.specs.Files.{IsSpelledOrItself, IsAcceptedWith};
ghost use Rattle.claims_check.specs.Views.{stated_of};
ghost use Rattle.program_claims.specs.Claims.{AllHoldOf};
ghost use Rattle.refined_types.specs.Views.{file_view, section_view};
ghost use Rattle.facts_proof.specs.Proofs.{ProvesFacts, ProvesAnalysis, ProvesReport};

use crate::claims::claims_of;
use crate::lemmas::rule_lemmas;
use crate::plain_part::plain_part;
use cert_types::ProofFile;
use check_file::{CheckError, can_be_numbered, check};
use check_refined::{FileRefusal, accepted_program, check_over};
use claims_check::Statement;
use facts_section::facts_section;
use guard_prep::{RuleRows, rows};
use its_model::Program;
use location_facts::{facts, strengthen};
use outcome::Outcome;
use poly_terms::Memory;
use refined_programs::Section;
use refined_types::RefinedFile;
use std::alloc::{AllocError, Global};

/// A proof file, and what its claims state, in order.
#[derive(Drop)]
pub struct FactsProof {
    pub file: RefinedFile,
    pub stated: Vec<Statement>,
}

/// The proof file of what the analysis of a program with the facts at its locations prints, where each linear program
/// may take this many pivots. Its section has the facts, its lemmas and gaps are those of the analysis of the program
/// that the section spells, and its claims are on all bounds of the report. If a symbol has more than 32 strongest
/// facts, the section has those that imply the others.
///
/// There is no file if the section isn't accepted, as where a guard with facts is over the limits of a rule; or if the
/// checker doesn't see that the lemmas are as good as the report: they are found for another order of rules, and so may
/// differ.
///
/// # Errors
///
/// `Memory` where an allocation fails, and where there are 2^32 symbols or more.
pub fn facts_proof(alloc: Global, p: &Program, pivots: u32) -> Result<Option<FactsProof>, Memory>
    requires { IsValid (program_of p.now) }
    ensures { IfOk result (λ found. IfSome found (ProvesFacts (program_of p.now) pivots)) }
{
    let prepared_rules = all_rows(alloc, p)?;
    let found = facts(alloc, p, &prepared_rules, pivots)?;
    let stronger = strengthen(alloc, p, &found)?;
    let outcome = time_bounds::analyse(alloc, &stronger, pivots)?;
    let section = facts_section(alloc, p, &prepared_rules, &found)?;
    proof_of_outcome(alloc, p, section, &outcome, pivots)
}

/// The proof file of what the analysis of a program itself prints, where each linear program may take this many pivots.
/// It has no section, its lemmas and gaps are those of the analysis, and its claims are on all bounds of the report.
/// There is no file if the checker doesn't see that a claim follows from the lemmas.
///
/// # Errors
///
/// `Memory` where an allocation fails.
#[tactic(auto, using(crate::proofs::WholeFiles::proved_analysis))]
pub fn analysis_proof(alloc: Global, p: &Program, pivots: u32) -> Result<Option<FactsProof>, Memory>
    requires { IsValid (program_of p.now) }
    ensures { IfOk result (λ found. IfSome found (ProvesAnalysis (program_of p.now) pivots)) }
{
    let outcome = time_bounds::analyse(alloc, p, pivots)?;
    proof_over(alloc, p, None, p, &outcome, pivots)
}

// The rows of each rule, in order.
fn all_rows(alloc: Global, p: &Program) -> Result<Vec<RuleRows>, Memory>
    requires { IsValid (program_of p.now) }
    ensures { IfOk result (λ prepared_rules. AreRowsOf prepared_rules.items (program_of p.now)) }
{
    let mut prepared_rules = Vec::new(alloc);
    for rule in &p.rules {
        prepared_rules.push(rows(alloc, rule)?)?;
    }
    Ok(prepared_rules)
}

// The proof file with a section that states its facts and the bounds of an outcome, if the checker accepts it.
fn proof_of_outcome(
    alloc: Global,
    p: &Program,
    section: Section,
    outcome: &Outcome,
    pivots: u32,
) -> Result<Option<FactsProof>, Memory>
    requires { IsValid (program_of p.now) }
    ensures { IfOk result (λ found. IfSome found
        (ProvesReport (program_of p.now) (Some section) (report_of outcome.now))) }
{
    match accepted_program(alloc, p, &section) {
        Ok(spelled_program) => proof_over(
            alloc,
            p,
            Some(section),
            &spelled_program,
            outcome,
            pivots,
        ),
        Err(FileRefusal::Memory) => Err(AllocError),
        Err(_) => Ok(None),
    }
}

// The same over the program that the section spells, or over the program itself where there is no section.
#[tactic(auto, using(crate::proofs::WholeFiles::rules_few))]
fn proof_over(
    alloc: Global,
    p: &Program,
    section: Option<Section>,
    spelled_program: &Program,
    outcome: &Outcome,
    pivots: u32,
) -> Result<Option<FactsProof>, Memory>
    requires valid { IsValid (program_of p.now) }
    requires spelled { IsSpelledOrItself (program_of p.now) (section_view section) (program_of spelled_program.now) }
    requires valid_spelled { IsValid (program_of spelled_program.now) }
    ensures { IfOk result (λ found. IfSome found
        (ProvesReport (program_of p.now) section (report_of outcome.now))) }
{
    let plain = plain_part(alloc, spelled_program, pivots)?;
    if !can_be_numbered(&plain) {
        return Ok(None);
    }
    let stated = match check(alloc, spelled_program, &plain) {
        Ok(stated) => stated,
        Err(CheckError::Memory) => return Err(AllocError),
        Err(_) => return Ok(None),
    };
    let lemmas = rule_lemmas(alloc, p, section.as_ref(), spelled_program, &stated)?;
    let claims = claims_of(alloc, outcome, &lemmas)?;
    let file = RefinedFile {
        section,
        plain,
        signed: Vec::new(alloc),
        claims,
    };
    accepted_proof(alloc, p, spelled_program, file)
}

// The file with what its claims state, if the checker accepts it over the program that its section spells.
fn accepted_proof(
    alloc: Global,
    p: &Program,
    spelled_program: &Program,
    file: RefinedFile,
) -> Result<Option<FactsProof>, Memory>
    requires valid { IsValid (program_of p.now) }
    requires spelled_program { IsSpelledOrItself (program_of p.now) (section_view file.section) (program_of spelled_program.now) }
    requires numbered { CanBeNumbered file.plain }
    ensures same { IfOk result (λ found. IfSome found (λ proof. proof.file ≡ file)) }
    ensures states { IfOk result (λ found. IfSome found (λ proof.
        IsAcceptedWith (program_of p.now) (file_view file) (map stated_of proof.stated.items))) }
    ensures holds { IfOk result (λ found. IfSome found
        (λ proof. AllHoldOf (program_of p.now) (map stated_of proof.stated.items))) }
{
    match check_over(alloc, p, spelled_program, &file) {
        Ok(stated) => Ok(Some(FactsProof { file, stated })),
        Err(FileRefusal::Memory) => Err(AllocError),
        Err(_) => Ok(None),
    }
}
