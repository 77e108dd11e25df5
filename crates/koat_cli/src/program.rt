//! Runs the program, from its words to the status of its process.

ghost use Rattle.std.specs.Prelude.{◌≡◌, ◌≢◌, ◌≤◌, [], drop, IfErr, IfOk, IsSome};
ghost use Rattle.std.specs.IoError.{error_kind};
ghost use Rattle.std.specs.Process.{exit_status};
ghost use Rattle.call_plans.specs.Calls.{sink_use_of};
ghost use Rattle.call_plans.specs.Numbers.{number_of};
ghost use Rattle.koat_cli.specs.Calls.{call_of};
ghost use Rattle.koat_cli.specs.Processes.{Exits};

use crate::top_call::run;
use call_plans::Status;
use outside_io::{Shelf, Sink};
use std::alloc::Global;
use std::io;
use std::io::ErrorKind;
use std::process::ExitCode;

/// Runs the program, and returns the status of its process. `words` is what the system gave: the words of the command
/// line, the program's name first.
///
/// The words after the name go to [`run`](crate::run). If one of the words isn't UTF-8, `run` gets none, so that the
/// usage text comes. If the words can't be obtained because memory ran out, or the system refuses them, nothing is
/// written and the status is 5.
pub fn run_program<F: Shelf, S: Sink>(
    alloc: Global,
    words: io::Result<Vec<String>>,
    shelf: &mut F,
    sink: &mut S,
) -> ExitCode
    ensures ends { IfOk words (λ all.
        Exits result (call_of F.Shelf (drop 1 all.items) shelf.old shelf.new) (sink_use_of S.Sink sink.old sink.new)) }
    ensures no_text { IfErr words (λ error. error_kind error ≡ ErrorKind.InvalidData
        → Exits result (call_of F.Shelf [] shelf.old shelf.new) (sink_use_of S.Sink sink.old sink.new)) }
    ensures no_words { IfErr words (λ error. error_kind error ≢ ErrorKind.InvalidData
        → (exit_status result ≡ 5) × (shelf.new ≡ shelf.old)) }
    ensures memory { exit_status result ≡ 5 → sink.new ≡ sink.old }

    ensures keeps_files { F.files_if_disclosed shelf.new ≡ F.files_if_disclosed shelf.old }
    ensures keeps_shelf_count { F.faults shelf.old ≤ F.faults shelf.new }
    ensures keeps_sink_count { S.faults sink.old ≤ S.faults sink.new }
    ensures keeps_disclosing { IsSome (S.written sink.old) → IsSome (S.written sink.new) }
{
    match words {
        Ok(all) => exit_with(run(alloc, after_first(&all), shelf, sink)),
        Err(error) if error.kind() == ErrorKind::InvalidData => {
            exit_with(run(alloc, &[], shelf, sink))
        }
        Err(_) => exit_with(Status::Memory),
    }
}

// The end of a process with the number of this status.
fn exit_with(status: Status) -> ExitCode
    ensures { exit_status result ≡ number_of status }
{
    ExitCode::from(status.code())
}

// The words after the first.
fn after_first(words: &[String]) -> &[String]
    ensures { result.now ≡ drop 1 words.now }
{
    match words {
        [_first, rest @ ..] => rest,
        [] => &[],
    }
}
