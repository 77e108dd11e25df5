//! The verdict of the checker on a proof file, with its text.

ghost use Rattle.std.specs.Prelude.{IfOk};
ghost use Rattle.its_model.specs.Valid.{IsValid};
ghost use Rattle.its_model.specs.Views.{program_of};
ghost use Rattle.cert_types.specs.AnswerViews.{file_of};
ghost use Rattle.check_text.specs.Verdicts.{IsVerdict};

use crate::facts::text_of_accepted;
use crate::faults::error_text;
use cert_types::ProofFile;
use check_file::{can_be_numbered, check};
use its_model::Program;
use model::Memory;
use std::alloc::{AllocError, Global};

/// The verdict of the checker on a proof file.
#[derive(Drop)]
pub enum Verdict {
    /// Every lemma and every gap is accepted; the text has all facts of the lemmas, in order, and the gaps.
    Accepted(Vec<u8>),
    /// A node of a lemma, or else a gap, isn't accepted; the text states the first, and why.
    Refused(Vec<u8>),
}

/// The verdict of the checker on a proof file of a program, with its text. If the file is accepted, each fact in the
/// text holds on every run of the program, from any integers and by any choice of rules, whoever made the file.
///
/// # Errors
///
/// `Memory` where an allocation fails, and where the file has 2^32 lemmas, gaps, or nodes in a lemma, or more: no
/// machine holds that many.
pub fn verdict_on(alloc: Global, p: &Program, f: &ProofFile) -> Result<Verdict, Memory>
    requires { IsValid (program_of p.now) }
    ensures { IfOk result (IsVerdict (program_of p.now) (file_of f.now)) }
{
    if !can_be_numbered(f) {
        return Err(AllocError);
    }
    match check(alloc, p, f) {
        Ok(facts) => Ok(Verdict::Accepted(text_of_accepted(alloc, p, &facts, &f.gaps)?)),
        Err(error) => Ok(Verdict::Refused(error_text(alloc, p, &error)?)),
    }
}
