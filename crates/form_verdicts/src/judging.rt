//! The verdict on a proof file of any form.

ghost use Rattle.std.specs.Prelude.{◌≡◌, map, IfOk};
ghost use Rattle.its_model.specs.Valid.{IsValid};
ghost use Rattle.its_model.specs.Views.{program_of};
ghost use Rattle.program_claims.specs.Claims.{AllHoldOf};
ghost use Rattle.claims_check.specs.Views.{stated_of};
ghost use Rattle.symbol_facts.specs.Views.{fact_of};
ghost use Rattle.refined_types.specs.Views.{file_view, section_view};
ghost use Rattle.check_refined.specs.Files.{IsAcceptedWith};
ghost use Rattle.proof_forms.specs.Results.{text_of};
ghost use Rattle.form_verdicts.specs.Verdicts.{IsVerdictOn, IsRefinedVerdict, IsRefinedAcceptance, facts_of_section};

use crate::refusals::{refusal_text, section_refusal_text};
use check_file::can_be_numbered;
use check_refined::check_refined_file;
use check_text::{Verdict, verdict_on};
use claims_check::Statement;
use claims_text::statements_text;
use its_model::Program;
use model::Memory;
use proof_forms::ProofText;
use refined_programs::Section;
use refined_types::RefinedFile;
use std::alloc::{AllocError, Global};
use symbol_facts::{SymbolFact, symbol_facts, symbol_facts_hold};

/// The verdict of the checker on what the text of a proof file of a program stands for, with its text. If the file is
/// accepted, what each line of the text states holds on every run of the program itself, from any integers and by any
/// choice of rules, whoever made the file: of the first two forms the facts of all lemmas and the gaps, of the third form
/// the facts at symbols that all of their copies have, and what the claims state. Else the text is that of the first part
/// that isn't accepted, and why.
///
/// # Errors
///
/// `Memory` where an allocation fails, and where the file has 2^32 lemmas, gaps, or nodes in a lemma, or coefficients of a
/// fact, or more: no machine holds that many.
pub fn verdict(alloc: Global, program: &Program, proof: &ProofText) -> Result<Verdict, Memory>
    requires { IsValid (program_of program.now) }
    ensures { IfOk result (IsVerdictOn (program_of program.now) (text_of proof.now)) }
{
    match proof {
        ProofText::Plain(file) => verdict_on(alloc, program, file),
        ProofText::Refined(file) => refined_verdict(alloc, program, file),
        ProofText::NotRefined { section, refusal } => {
            Ok(Verdict::Refused(section_refusal_text(alloc, section, *refusal)?))
        }
    }
}

// The verdict on a file of the third form.
fn refined_verdict(alloc: Global, program: &Program, file: &RefinedFile) -> Result<Verdict, Memory>
    requires { IsValid (program_of program.now) }
    ensures { IfOk result (IsRefinedVerdict (program_of program.now) (file_view file.now)) }
{
    if !can_be_numbered(&file.plain) {
        return Err(AllocError);
    }
    match check_refined_file(alloc, program, file) {
        Ok(stated) => Ok(Verdict::Accepted(acceptance_text(alloc, program, file, &stated)?)),
        Err(refusal) => Ok(Verdict::Refused(refusal_text(alloc, program, file, refusal)?)),
    }
}

// The text of a file of the third form that is accepted, whose claims state this.
fn acceptance_text(
    alloc: Global,
    program: &Program,
    file: &RefinedFile,
    stated: &[Statement],
) -> Result<Vec<u8>, Memory>
    requires valid { IsValid (program_of program.now) }
    requires accepted { IsAcceptedWith (program_of program.now) (file_view file.now) (map stated_of stated.now) }
    requires hold { AllHoldOf (program_of program.now) (map stated_of stated.now) }
    ensures { IfOk result (λ text. IsRefinedAcceptance (program_of program.now) (file_view file.now) text.items) }
{
    symbol_facts_hold();
    let facts = section_facts(alloc, program, &file.section)?;
    let known = facts.as_slice();
    let text = statements_text(alloc, program, known, stated)?;
    Ok(text)
}

// The facts at the symbols of a program that all of their copies have, where there is a section.
fn section_facts(
    alloc: Global,
    program: &Program,
    section: &Option<Section>,
) -> Result<Vec<SymbolFact>, Memory>
    ensures { IfOk result (λ facts.
        map fact_of facts.items ≡ facts_of_section (program_of program.now) (section_view section.now)) }
{
    match section {
        None => Ok(Vec::new(alloc)),
        Some(section) => symbol_facts(alloc, program, section),
    }
}
