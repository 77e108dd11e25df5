//! The accepted section of facts, and its text.

ghost use Rattle.std.specs.Prelude.{◌≡◌, IfOk, IfSome, IfNone};
ghost use Rattle.its_model.specs.Valid.{IsValid};
ghost use Rattle.its_model.specs.Views.{program_of};
ghost use Rattle.refined_programs.specs.Views.{annotated_of, section_of};
ghost use Rattle.section_checks.specs.Faults.{IsAccepted};
ghost use Rattle.section_writer.specs.Texts.{text_of};
ghost use Rattle.location_facts.specs.Laws.{AreHeld};
ghost use Rattle.facts_section.specs.Copies.{IsSectionOfFacts};
ghost use Rattle.facts_certs.specs.Refined.{GuardsHaveFacts, RefinesStrengthened};
ghost use Rattle.facts_certs.specs.Refusals.{HasRefusedSection};

use facts_section::facts_section;
use guard_prep::RuleRows;
use its_model::Program;
use location_facts::LocFacts;
use poly_terms::Memory;
use refined_programs::Section;
use refinement_check::{AcceptError, accept};
use section_writer::print_section;
use std::alloc::{AllocError, Global};

/// An accepted section of a program whose copies have facts, with their certificates.
#[derive(Debug, Drop)]
pub struct FactsCert {
    /// The section.
    pub section: Section,
    /// Its text, as a proof file has it.
    pub text: Vec<u8>,
}

/// The section of facts that hold on every run of a program, if it is accepted; the prepared rows are those of the
/// rules, in order. Each symbol has one copy, with the strongest of its facts, or if these are more than 32, those of
/// them that others don't imply; and each rule leads to the copy of its target. So the section spells the strengthened
/// program (`strengthen`) but for names, the order of symbols and rules, and how guards are written: a guard holds
/// where that of the program's rule does and all facts of its source are met. Both programs have the same runs, and
/// bounds of what is spelled are bounds of the other.
///
/// The result is `None` only if the section has a fault, although its start, facts, branches and ends have their
/// shapes and its rules are few enough: a guard with facts, or with a fact that fails, is over the limits of a rule; the
/// multipliers of a fact aren't as many as the rows, or one is over the limit; or they don't show the fact. No clause
/// excludes the last case, though it doesn't occur if the certificates show the facts.
///
/// # Errors
///
/// `Memory` where an allocation fails, where there are 2^32 symbols or more, and where a fact's least is -2^63.
#[tactic(auto, using(crate::proofs::RefinedLaws::accepted_guards, crate::proofs::RefinedLaws::refused_by))]
pub fn facts_cert(
    alloc: Global,
    p: &Program,
    prepared_rules: &[RuleRows],
    f: &LocFacts,
) -> Result<Option<FactsCert>, Memory>
    requires valid { IsValid (program_of p.now) }
    requires held { AreHeld (program_of p.now) f.now.kept.items }
    ensures accepted { IfOk result (λ found. IfSome found
        (λ cert. IsAccepted (program_of p.now) (annotated_of cert.section))) }
    ensures text { IfOk result (λ found. IfSome found
        (λ cert. cert.text.items ≡ text_of (program_of p.now) (annotated_of cert.section))) }
    ensures refined { IfOk result (λ found. IfSome found
        (λ cert. RefinesStrengthened (program_of p.now) f.now.kept.items (section_of cert.section))) }
    ensures of_facts { IfOk result (λ found. IfSome found
        (λ cert. IsSectionOfFacts (program_of p.now) f.now.kept.items (section_of cert.section))) }
    ensures guards { IfOk result (λ found. IfSome found
        (λ cert. GuardsHaveFacts (program_of p.now) f.now.kept.items (section_of cert.section))) }
    ensures refused { IfOk result (λ found. IfNone found (HasRefusedSection (program_of p.now) f.now.kept.items)) }
{
    let section = facts_section(alloc, p, prepared_rules, f)?;
    match accept(alloc, p, &section) {
        Ok(()) => {
            let text = print_section(alloc, p, &section)?;
            Ok(Some(FactsCert { section, text }))
        }
        Err(AcceptError::Wrong(_)) => Ok(None),
        Err(AcceptError::Memory) => Err(AllocError),
    }
}
