//! Replays a run beside the bounds of its program's analysis, or gives its first bad step.

ghost use Rattle.std.specs.Prelude.{◌≡◌, length, map, nat_abs, IfOk};
ghost use Rattle.its_model.specs.Valid.{IsValid};
ghost use Rattle.its_model.specs.Views.{program_of};
ghost use Rattle.run_replay.specs.ReplayAnswers.{IsReplay, sums_of};
ghost use Rattle.run_replay.specs.Spelled.{IsWithin};
ghost use Rattle.run_replay.specs.Views.{run_of};
ghost use Rattle.call_plans.specs.Plans.{HasRow};
ghost use Rattle.koat_cli.specs.Commands.Replay.{replay_answers};

use crate::replay_text::replay_text;
use crate::run_refusal::bad_step;
use call_plans::{Status, StatusText};
use command_line::DEFAULT_PIVOTS;
use its_model::Program;
use model::Memory;
use run_replay::{RunFile, Tally, replay, replays_are_decided};
use std::alloc::Global;
use time_bounds::analyse;

/// The tally of a run of a program, beside the bounds that an analysis with the default number of pivots finds; or its
/// first bad step, in which case no analysis is made.
pub(crate) fn replay_answer(
    alloc: Global,
    program: &Program,
    run: &RunFile,
) -> Result<StatusText, Memory>
    requires valid { IsValid (program_of program.now) }
    requires within { IsWithin (program_of program.now) (run_of run.now) }
    ensures { IfOk result (λ reply.
        HasRow (replay_answers (program_of program.now) (run_of run.now)) reply.status reply.text.items) }
{
    match replay(alloc, program, run) {
        Ok(tally) => tally_answer(alloc, program, run, &tally),
        Err(error) => Ok(StatusText {
            status: Status::NotARun,
            text: bad_step(alloc, &error)?,
        }),
    }
}

// The tally beside the bounds.
fn tally_answer(
    alloc: Global,
    program: &Program,
    run: &RunFile,
    tally: &Tally,
) -> Result<StatusText, Memory>
    requires valid { IsValid (program_of program.now) }
    requires within { IsWithin (program_of program.now) (run_of run.now) }
    requires replayed { IsReplay (program_of program.now) (run_of run.now) (sums_of tally.now) }
    ensures { IfOk result (λ reply.
        HasRow (replay_answers (program_of program.now) (run_of run.now)) reply.status reply.text.items) }
{
    replays_are_decided();
    let found = analyse(alloc, program, DEFAULT_PIVOTS)?;
    let at = absolute_values(alloc, &run.start)?;
    Ok(StatusText {
        status: Status::Done,
        text: replay_text(alloc, &at, tally, &found)?,
    })
}

// The absolute values of numbers.
fn absolute_values(alloc: Global, values: &[i128]) -> Result<Vec<u128>, Memory>
    ensures { IfOk result (λ sizes. sizes.items ≡ map nat_abs values.now) }
{
    values
        .iter()
        .map(|value| value.unsigned_abs())
        .collect(alloc)
}
