//! The lemmas of a file: those of its plain part, and after them those about potentials.

ghost use Rattle.std.specs.Prelude.{map, MatchResult};
ghost use Rattle.its_model.specs.Valid.{IsValid};
ghost use Rattle.its_model.specs.Views.{program_of};
ghost use Rattle.cert_types.specs.AnswerViews.{file_of};
ghost use Rattle.check_file.specs.Files.{CanBeNumbered};
ghost use Rattle.potential_types.specs.Views.{fact_view, lemma_of};
ghost use Rattle.check_refined.specs.Refusals.{StatesFacts, RefusesLemmas};

use crate::refusal::FileRefusal;
use cert_types::ProofFile;
use check_file::check;
use check_potentials::{Ground, check_lemmas, prepared_rows};
use its_model::Program;
use potential_types::{SignedFact, SignedLemma};
use signed_facts::signed_facts;
use std::alloc::Global;

/// What the lemmas of a file state of a valid program, in order: first those of the plain part, as signed facts, and
/// then those about potentials. `can_be_numbered` of `check_file` tells whether the plain part can be numbered.
///
/// # Errors
///
/// `Node` with the first node of the plain part that isn't accepted, or else `Gap` with its first gap that doesn't
/// hold; else `Lemma` with the first lemma about potentials that isn't accepted; `Memory` where an allocation fails.
pub fn stated_facts(
    alloc: Global,
    p: &Program,
    plain: &ProofFile,
    signed: &[SignedLemma],
) -> Result<Vec<SignedFact>, FileRefusal>
    requires valid { IsValid (program_of p.now) }
    requires numbered { CanBeNumbered plain.now }
    ensures { MatchResult result
        (λ facts. StatesFacts (program_of p.now) (file_of plain.now) (map lemma_of signed.now)
        (map fact_view facts.items))
        (λ refusal. RefusesLemmas (program_of p.now) (file_of plain.now) (map lemma_of signed.now) refusal) }
{
    let stated = check(alloc, p, plain)?;
    let facts = signed_facts(alloc, p, &stated)?;
    let rules = prepared_rows(alloc, p)?;
    let ground = Ground {
        program: p,
        rules: &rules,
    };
    let found = check_lemmas(alloc, ground, facts, signed)?;
    Ok(found)
}
