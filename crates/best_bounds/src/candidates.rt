//! Files by what a search finds, before the checker accepts or refuses them.

ghost use Rattle.std.specs.Prelude.{◌≡◌, [], IfOk, IfSome};
ghost use Rattle.its_model.specs.Valid.{IsValid};
ghost use Rattle.its_model.specs.Views.{program_of};

use cert_types::ProofFile;
use check_refined::{FileRefusal, accepted_program};
use found_claims::{claims_of, copies_in, own_copies};
use guard_prep::{RuleRows, rows};
use its_model::Program;
use poly_terms::Memory;
use potential_search::{Findings, SearchError, search_lemmas};
use refined_programs::Section;
use refined_types::RefinedFile;
use std::alloc::{AllocError, Global};

/// A file with the lemmas that a search finds over the program of a section, or over the program itself where there is
/// none, and with claims by them; none where the section isn't accepted, or a number is too large.
///
/// # Errors
///
/// `Memory` where an allocation fails.
pub(crate) fn candidate_file(
    alloc: Global,
    p: &Program,
    section: Option<Section>,
    work: &mut u64,
) -> Result<Option<RefinedFile>, Memory>
    requires { IsValid (program_of p.now) }
    ensures { IfOk result (λ file. IfSome file (λ f. f.plain.lemmas.items ≡ [])) }
{
    match section {
        None => {
            let copies = own_copies(alloc, p.rules.len())?;
            file_over(alloc, p, None, &copies, work)
        }
        Some(section) => {
            let copies = copies_in(alloc, &section, p.rules.len())?;
            match accepted_program(alloc, p, &section) {
                Ok(refined) => file_over(alloc, &refined, Some(section), &copies, work),
                Err(FileRefusal::Memory) => Err(AllocError),
                Err(_) => Ok(None),
            }
        }
    }
}

// The file of a search over a refined program, whose rules are copies of those of the program.
fn file_over(
    alloc: Global,
    refined: &Program,
    section: Option<Section>,
    copies: &[Vec<u32>],
    work: &mut u64,
) -> Result<Option<RefinedFile>, Memory>
    requires { IsValid (program_of refined.now) }
    ensures { IfOk result (λ file. IfSome file (λ f. f.plain.lemmas.items ≡ [])) }
{
    match found_over(alloc, refined, work)? {
        None => Ok(None),
        Some(findings) => {
            let claims = claims_of(alloc, &findings, copies)?;
            Ok(Some(RefinedFile {
                section,
                plain: ProofFile {
                    lemmas: Vec::new(alloc),
                    gaps: Vec::new(alloc),
                },
                signed: findings.lemmas,
                claims,
            }))
        }
    }
}

// What a search over a refined program finds; none where a number is too large.
fn found_over(alloc: Global, refined: &Program, work: &mut u64) -> Result<Option<Findings>, Memory>
    requires { IsValid (program_of refined.now) }
{
    let rows = rows_of_rules(alloc, refined)?;
    match search_lemmas(alloc, refined, &rows, *work) {
        Ok(findings) => {
            *work = findings.work;
            Ok(Some(findings))
        }
        Err(SearchError::Memory) => Err(AllocError),
        Err(SearchError::Range | SearchError::Budget) => Ok(None),
    }
}

/// The rows of each rule, in order.
///
/// # Errors
///
/// `Memory` where an allocation fails.
pub(crate) fn rows_of_rules(alloc: Global, p: &Program) -> Result<Vec<RuleRows>, Memory>
    requires { IsValid (program_of p.now) }
{
    let mut all_rows = Vec::new(alloc);
    for rule in &p.rules {
        all_rows.push(rows(alloc, rule)?)?;
    }
    Ok(all_rows)
}
