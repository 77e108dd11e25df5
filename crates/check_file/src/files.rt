//! Checks a proof file.

ghost use Rattle.std.specs.Prelude.{map, IfOk, MatchResult};
ghost use Rattle.std.specs.List.{All};
ghost use Rattle.its_model.specs.Valid.{IsValid};
ghost use Rattle.its_model.specs.Views.{program_of};
ghost use Rattle.model.specs.Facts.{Holds};
ghost use Rattle.check_file.specs.Files.{CanBeNumbered, IsAcceptedWith, RefusesFile, ExcludeFunctions};
ghost use Rattle.check_file.specs.WorkedFiles.{FilesAreAnswered, FilesAreNumbered};
ghost use Rattle.cert_types.specs.AnswerViews.{file_of, gap_of};
ghost use Rattle.cert_types.specs.Views.{facts_of};
ghost use Rattle.cert_types.specs.cert_program.Laws.{AcceptedFilesHold};

use crate::error::CheckError;
use crate::gaps::first_refused_gap;
use crate::lemmas::{all_stated, judge_lemmas};
use cert_context::check_context;
use cert_types::{Fact, ProofFile};
use its_model::Program;
use std::alloc::Global;

/// Checks a proof file: `Ok`, with the facts of all lemmas in order, exactly if every lemma is accepted, every gap
/// holds, and memory suffices. Then each of these facts holds on all runs of the program, and each gap excludes every
/// affine function with coefficient 0 at its shut places that ranks its rule at all rational points of the rules' rows,
/// whoever made the file. No linear program is solved.
///
/// # Errors
///
/// `No` with the first node that isn't accepted, all nodes before it being accepted, and the first reason why it isn't;
/// `NoGap` where all lemmas are accepted, with the first gap that doesn't hold, and its first fault; `Memory` where an
/// allocation fails.
pub fn check(alloc: Global, p: &Program, f: &ProofFile) -> Result<Vec<Fact>, CheckError>
    requires valid { IsValid (program_of p.now) }
    requires numbered { CanBeNumbered f.now }
    ensures answered { MatchResult result
        (λ facts. IsAcceptedWith (program_of p.now) (file_of f.now) (facts_of facts.items))
        (λ error. RefusesFile (program_of p.now) (file_of f.now) error) }
    ensures facts { IfOk result (λ facts. All (Holds (program_of p.now)) (facts_of facts.items)) }
    ensures gaps { IfOk result (λ _. ExcludeFunctions (program_of p.now) (map gap_of f.now.gaps.items)) }
{
    let context = check_context(alloc, p)?;
    let kept = judge_lemmas(alloc, &context, &f.lemmas)?;
    match first_refused_gap(&context, &f.gaps) {
        Some(off) => Err(CheckError::NoGap {
            gap: off.gap,
            fault: off.fault,
        }),
        None => Ok(all_stated(alloc, &kept)?),
    }
}

/// In a file that is accepted for a valid program every fact of every lemma holds on all runs, and every gap excludes
/// ranking functions on rational points, whoever made the file. The function has no code: its contract is the law.
pub fn accepted_files_hold()
    ensures { AcceptedFilesHold }
{}

/// Worked values of which small files can be numbered, and of the answers on small files. The function has no code: its
/// contract is the values.
pub fn files_are_answered()
    ensures numbered { FilesAreNumbered }
    ensures answered { FilesAreAnswered }
{}
