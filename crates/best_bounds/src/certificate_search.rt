//! Looks for the proof file with the most bounds on steps.

ghost use Rattle.std.specs.Prelude.{IfOk};
ghost use Rattle.its_model.specs.Valid.{IsValid};
ghost use Rattle.its_model.specs.Views.{program_of};
ghost use Rattle.best_bounds.specs.Found.{IsCertificateFor};

use crate::comparing::{Comparison, Margin};
use crate::found_bounds::AcceptedFile;
use crate::scoring::better_file;
use crate::searches::find;
use facts_proof::{FactsProof, facts_proof};
use its_model::Program;
use poly_terms::Memory;
use signed_values::comparison_starts;
use std::alloc::Global;

/// The better one of the best file of `find` and of the file of what the analysis with facts prints, by the same
/// scores, where the checker accepts such a file. Each linear program may take so many pivots, and the searches of `find`
/// work as it says.
///
/// # Errors
///
/// `Memory` where an allocation fails, and where there are 2^32 symbols or more.
#[tactic(auto, using(crate::proofs::FoundFiles::alone_certified, crate::proofs::FoundFiles::better_certified))]
pub fn find_certificate(alloc: Global, p: &Program, pivots: u32) -> Result<AcceptedFile, Memory>
    requires { IsValid (program_of p.now) }
    ensures { IfOk result (λ accepted. IsCertificateFor (program_of p.now) pivots accepted) }
{
    let found = find(alloc, p, pivots)?.file;
    let starts = comparison_starts(alloc, p.start_names.len())?;
    match facts_proof(alloc, p, pivots)? {
        None => Ok(found),
        Some(FactsProof { file, stated }) => {
            let comparison = Comparison {
                starts: &starts,
                margin: Margin::Any,
            };
            Ok(better_file(found, AcceptedFile { file, stated }, comparison))
        }
    }
}
