//! The lemmas and gaps of an analysis as the plain part of a proof file.

ghost use Rattle.std.specs.Prelude.{length, IfOk};
ghost use Rattle.std.specs.List.{All};
ghost use Rattle.its_model.specs.Valid.{IsValid};
ghost use Rattle.its_model.specs.Views.{program_of};
ghost use Rattle.cert_types.specs.Views.{proof_of};
ghost use Rattle.cert_text.specs.OverFirst.{IsOverFirst};
ghost use Rattle.facts_proof.specs.Parts.{IsPlainPart};

use cert_types::ProofFile;
use its_model::Program;
use outcome::Outcome;
use poly_terms::Memory;
use std::alloc::Global;
use time_bounds::analyse;

/// The lemmas and gaps of the analysis of a program, where each linear program may take this many pivots. The checker
/// accepts them.
///
/// # Errors
///
/// `Memory` where an allocation fails.
pub(crate) fn plain_part(alloc: Global, program: &Program, pivots: u32) -> Result<ProofFile, Memory>
    requires { IsValid (program_of program.now) }
    ensures { IfOk result (λ file. IsPlainPart (program_of program.now) file) }
{
    analysis_certs::proved_files_are_accepted();
    let Outcome { lemmas, gaps, .. } = analyse(alloc, program, pivots)?;
    Ok(ProofFile { lemmas, gaps })
}
