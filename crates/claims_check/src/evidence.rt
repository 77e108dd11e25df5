//! What claims rest on.

ghost use Rattle.std.specs.Prelude.{◌≡◌, map};
ghost use Rattle.refined_programs.specs.Views.{copy_of};
ghost use Rattle.claims_check.specs.Views.{evidence_of};

use its_model::Program;
use potential_types::SignedFact;
use refined_programs::{Section, SymbolCopy};

/// A program, the section of its copies where there is one, and what is known of the program that the section spells.
#[derive(Clone, Copy)]
pub struct Evidence<'a> {
    /// The program of which the claims are.
    pub program: &'a Program,
    /// Copies of its symbols and branches of its rules, if there are any.
    pub section: Option<&'a Section>,
    /// The program that the section spells; without a section the program itself.
    pub above: &'a Program,
    /// The facts that lemmas state, over the rules of the program above.
    pub facts: &'a [SignedFact],
}

// The copies of symbols; none without a section.
pub(crate) fn symbol_copies<'a>(evidence: Evidence<'a>) -> &'a [SymbolCopy]
    ensures { map copy_of result.now ≡ (evidence_of evidence.entry).copies }
{
    match evidence.section {
        Some(section) => &section.copies,
        None => &[],
    }
}
