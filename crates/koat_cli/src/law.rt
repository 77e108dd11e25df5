//! Laws of the top call: a call has one answer, the status with which it ends follows from the request, and the text of
//! an analysis determines its report; and worked values.

ghost use Rattle.koat_cli.specs.CallsAnswered.{CallsAreAnswered};
ghost use Rattle.koat_cli.specs.ProvenChecks.{WhatIsProvedIsAccepted};
ghost use Rattle.koat_cli.specs.Exclusion.{AnswersExcludeEachOther};
ghost use Rattle.koat_cli.specs.LassoLaws.{LassosLeaveTimesMissing};
ghost use Rattle.koat_cli.specs.AnalysisTexts.{AnalysisTextsStateOneReport};
ghost use Rattle.koat_cli.specs.Statuses.{AnswersHaveStatuses};
ghost use Rattle.koat_cli.specs.WorkedEnds.{FaultsLeaveFirstBytes};
ghost use Rattle.koat_cli.specs.WorkedAnswers.{FiguresAreWorkedOut, LassoTextsAreWorkedOut, AnswersAreWorkedOut};
ghost use Rattle.koat_cli.specs.WorkedMissingFiles.{FilesAreReadInOrder};
ghost use Rattle.koat_cli.specs.WorkedMeanings.{StatusesMean, ReportsAreOfPrograms};
ghost use Rattle.koat_cli.specs.WorkedExecutions.{WhileAnswersAreWorkedOut, WhileStatusesMean};
ghost use Rattle.koat_cli.specs.WorkedReplayTexts.{ReplaysAreTexts, TalliesAreBounded};
ghost use Rattle.form_verdicts.specs.Laws.{VerdictsAreOne};
ghost use Rattle.proof_forms.specs.Laws.{ProofTextsAreDecided};
ghost use Rattle.run_replay.specs.ReplayLaws.{ReplaysAreDecided};

use form_verdicts::verdicts_are_one;
use lasso_forms::endless_turns_have_no_time;
use proof_forms::proof_texts_are_decided;
use run_replay::replays_are_decided;

// The laws of replays, of texts of proof files, and of verdicts on them. The contract is these laws; the function has no
// code but them.
fn texts_are_decided()
    ensures replays { ReplaysAreDecided }
    ensures proofs { ProofTextsAreDecided }
    ensures checks { VerdictsAreOne }
{
    replays_are_decided();
    proof_texts_are_decided();
    verdicts_are_one();
}

/// The law that a call of `run` has at most one answer, one status and one text, if no file is fetched for its words or
/// the shelf discloses its contents. So each status comes exactly in its case, except for faults and running out of
/// memory. If a file is fetched, this is without a fault of reading that came with a rise of the shelf's count of
/// faults, and not for `best` and `certify`, of which it isn't stated what their searches find. The contract is the law;
/// the function has no code but the laws of files.
pub fn answers_exclude_each_other()
    ensures { AnswersExcludeEachOther }
{
    texts_are_decided();
}

/// The law on the status with which a call ends, if memory suffices. If the shelf discloses its contents, and no count
/// of faults rises, a call with a request other than `best` and `certify`, whose searches aren't determined by what is
/// stated of them, ends with a status exactly if these contents say so by the plan of the request: with `ReadFault` if a
/// file that is reached is lacking, with the status of a refusal if one is too long or its bytes have no meaning, and
/// with that of an answer if the files have the meaning that it is for. A call for which no file is fetched ends by its
/// number alone, whatever the shelf discloses; and a call ends with `Usage` exactly if its words have no request. The
/// contract is the law; the function has no code but the laws of files.
pub fn calls_are_answered()
    ensures { CallsAreAnswered }
{
    texts_are_decided();
}

/// The law that the status of the answer to a request is one of those of the request, which a table lists for each
/// command, whatever the call sees of the shelf. The function has no code: its contract is the law.
pub fn answers_have_statuses()
    ensures { AnswersHaveStatuses }
{}

/// The law that `check` accepts what `prove`, with `Done` or with `Unknown`, or `certify` wrote for a program, if that has
/// at most 67,108,864 bytes: a call that requests its check for the same program, if the shelf discloses that it holds
/// both files, and no count of faults rises, ends with `Done` or `Memory`. The contract is the law; the function has no
/// code but the laws of files.
pub fn what_is_proved_is_accepted()
    ensures { WhatIsProvedIsAccepted }
{
    texts_are_decided();
}

/// The law that the report of an analysis of a valid program, whose numbers fit the types that hold them and whose total
/// has fewer than 2^127 nodes, is determined by its text: the text states no other report that can be printed, and none
/// of another analysis of the program. The numbers of what `analyse` wrote fit; so two calls that wrote the same text for
/// one program wrote the same report, if their totals have so few nodes. The function has no code: its contract is the
/// law.
pub fn analysis_texts_state_one_report()
    ensures { AnalysisTextsStateOneReport }
{}

/// The law that no report on a program with a lasso, whose turn leads back or is shown to move on, has a time for every
/// rule, if its bounds hold on all runs; that if `lasso` ended with `Done`, no such report on the program in its first
/// file has a time for a rule of the turn that was written, which is that of the lasso in its second file, nor a total
/// if that leads back and costs something; and that if `analyse` ended with `Done`, the program in its file has no
/// lasso. The contract is the law; the function has no code but the law of lassos.
pub fn lassos_leave_times_missing()
    ensures { LassosLeaveTimesMissing }
{
    endless_turns_have_no_time();
}

/// Worked values of what remains of a text after a fault of the sink. The function has no code: its contract is these
/// values.
pub fn worked_ends_hold()
    ensures { FaultsLeaveFirstBytes }
{}

/// Worked values of the figures of a report as text, of the texts of answers on a lasso, and of the answers to some
/// words. The function has no code: its contract is these values.
pub fn worked_answers_hold()
    ensures figures { FiguresAreWorkedOut }
    ensures lassos { LassoTextsAreWorkedOut }
    ensures answers { AnswersAreWorkedOut }
{}

/// Worked values of the texts of replays, and of which tallies are within the bounds of a report. The function has no
/// code: its contract is these values.
pub fn worked_replay_texts_hold()
    ensures texts { ReplaysAreTexts }
    ensures bounds { TalliesAreBounded }
{}

/// Worked values of the answers of commands, if a shelf lacks a file, or holds an empty one: the first of two files is
/// the program, and is read first. The function has no code but the laws of files: its contract is these values.
pub fn worked_missing_files_hold()
    ensures { FilesAreReadInOrder }
{
    texts_are_decided();
}

/// Worked values of what statuses mean, and of which reports of a program may have been written. The function has no
/// code: its contract is these values.
pub fn worked_meanings_hold()
    ensures statuses { StatusesMean }
    ensures reports { ReportsAreOfPrograms }
{}

/// Worked values of the answers for a while program, and of what statuses mean then. The function has no code but the
/// worked values below it: its contract is these values.
pub fn worked_executions_hold()
    ensures answers { WhileAnswersAreWorkedOut }
    ensures statuses { WhileStatusesMean }
{
    while_answer::worked_answers_hold();
}
