//! The text of a proof file.

ghost use Rattle.std.specs.Prelude.{◌≡◌, length, IfOk};
ghost use Rattle.std.specs.List.{All};
ghost use Rattle.its_model.specs.Valid.{IsValid};
ghost use Rattle.its_model.specs.Views.{program_of};
ghost use Rattle.cert_types.specs.Views.{proof_of};
ghost use Rattle.cert_text.specs.OverFirst.{IsOverFirst};
ghost use Rattle.facts_proof.specs.Proofs.{proof_text as text_of};

use crate::proving::FactsProof;
use check_refined::accepted_program;
use its_model::Program;
use poly_terms::Memory;
use refined_writer::print_refined;
use std::alloc::{AllocError, Global};

/// The text of a proof file that `facts_proof` gave for a program. Whoever hands it on reads it back and has it
/// checked.
///
/// # Errors
///
/// `Memory` where an allocation fails, and where the section of the file isn't accepted for the program.
pub fn proof_text(alloc: Global, p: &Program, proof: &FactsProof) -> Result<Vec<u8>, Memory>
    requires valid { IsValid (program_of p.now) }
    requires over_first { All (λ lemma. IsOverFirst (length p.now.start_names.items) (proof_of lemma))
        proof.now.file.plain.lemmas.items }
    ensures { IfOk result (λ text. text.items ≡ text_of (program_of p.now) proof.now) }
{
    match &proof.file.section {
        None => print_refined(alloc, p, p, &proof.file),
        Some(section) => match accepted_program(alloc, p, section) {
            Ok(spelled_program) => print_refined(alloc, p, &spelled_program, &proof.file),
            Err(_) => Err(AllocError),
        },
    }
}
