//! The answer to a line: a call, and after a space its operands.

use crate::limits::limit_report;
use crate::prefixes::{prefixes, short_puts};
use crate::processes::{process_end, status_codes};
use crate::proof_checks::prove_and_check;
use crate::requests::request;
use crate::scenarios::run_text;
use crate::shelves::{memory_fetches, steady_fetches};
use crate::sinks::{memory_puts, short_writes, steady_puts};
use crate::steady::steady_runs;
use crate::words::first_and_rest;
use model::Memory;
use std::alloc::Global;

/// Answers a line.
///
/// - `run SCENARIO` gives how each call of the scenario ends.
/// - `prefixes FILE @ SCENARIO` gives how the calls end for each prefix of the file, up to the whole file.
/// - `short-puts SCENARIO` gives how the calls end if the first put fails after 0 bytes, after 1 byte, and so on.
/// - `prove-and-check KIND p CONTENTS` gives how much of the report the check of a proof file of `prove` confirms.
/// - `limits SHAPE RULES PLACES` compares the analysis of a program of this size with its expected report.
/// - `process WORDS` and `process-error KIND` give how a process ends that gets these words, or this error instead.
/// - `statuses` gives the code of each status, and `request WORDS` what the words request.
/// - `fetch FILES @ ..` and `steady-fetch FILES @ ..` fetch from the shelf of a scenario.
/// - `put ROOM PIECES @ STOPS`, `steady-put PIECES` and `short-writes COUNT PIECES` put pieces into a sink.
/// - `steady-run SCENARIO` gives the statuses of calls on a shelf and a sink without faults.
pub(crate) fn answer(alloc: Global, line: &str) -> Result<String, Memory> {
    let (call, operands) = first_and_rest(line);
    match call {
        "run" => run_text(alloc, operands),
        "prefixes" => prefixes(alloc, operands),
        "short-puts" => short_puts(alloc, operands),
        "prove-and-check" => prove_and_check(alloc, operands),
        "limits" => limit_report(alloc, operands),
        "process" | "process-error" => process_end(alloc, call, operands),
        "statuses" => status_codes(alloc),
        "request" => request(alloc, operands),
        "fetch" => memory_fetches(alloc, operands),
        "steady-fetch" => steady_fetches(alloc, operands),
        "put" => memory_puts(alloc, operands),
        "steady-put" => steady_puts(alloc, operands),
        "short-writes" => short_writes(alloc, operands),
        "steady-run" => steady_runs(alloc, operands),
        _ => String::from_str(alloc, line),
    }
}
