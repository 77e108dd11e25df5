//! The answer to a line: a call, and after a blank the text that is read, in a short notation.

use crate::beginnings::{beginnings, beginnings_read};
use crate::changed::{bytes_changed, tokens_changed};
use crate::guards::guard;
use crate::outcomes::{Outcome, outcome_of};
use crate::printed::{generated, printed};
use crate::proofs::{WrittenFacts, proved};
use crate::replays::replayed;
use crate::runs::{placeless_run, run, run_beginnings, steps};
use crate::writing::{Frame, Writing, text_of};
use model::Memory;
use std::alloc::Global;

/// Answers a line. `rules` and `whole` are followed by rules or by a whole text, and answered by the result of reading
/// it; so are `long` and `long-whole`, where a program is answered by `read`. `beginnings`, `read-beginnings`, `tokens`
/// and `bytes` read a text again and again, and `guard` a long one. `run`, `placeless-run`, `steps` and
/// `run-beginnings` read run files, `replay` replays one, and `proof` and `count-proof` read a proof file. `print` is
/// followed by rules and `whole-print` by a whole text, and answered by the canonical text; `generate` by a number, and
/// answered by the text of the generated program.
pub(crate) fn answer(alloc: Global, line: &str) -> Result<String, Memory> {
    let Some((call, rest)) = line.split_once(' ') else {
        return String::from_str(alloc, line);
    };
    match call {
        "#" => String::from_str(alloc, line),
        "rules" => read_whole(alloc, &text_of(alloc, Frame::Rules, rest)?),
        "whole" => read_whole(alloc, &text_of(alloc, Frame::Whole, rest)?),
        "long" => read_shortly(alloc, &text_of(alloc, Frame::Rules, rest)?),
        "long-whole" => read_shortly(alloc, &text_of(alloc, Frame::Whole, rest)?),
        "beginnings" => beginnings(alloc, &text_of(alloc, Frame::Whole, rest)?.text),
        "read-beginnings" => beginnings_read(alloc, rest.as_bytes()),
        "tokens" => tokens_changed(alloc, rest),
        "bytes" => bytes_changed(alloc, rest),
        "run" => run(alloc, rest),
        "placeless-run" => placeless_run(alloc, rest),
        "steps" => steps(alloc, rest),
        "run-beginnings" => run_beginnings(alloc, rest),
        "replay" => replayed(alloc, rest),
        "proof" => proved(alloc, rest, WrittenFacts::Print),
        "count-proof" => proved(alloc, rest, WrittenFacts::Counts),
        "print" => printed(alloc, &text_of(alloc, Frame::Rules, rest)?.text),
        "whole-print" => printed(alloc, &text_of(alloc, Frame::Whole, rest)?.text),
        "generate" => generated(alloc, rest),
        "guard" => read_shortly(alloc, &guard(alloc, rest)?),
        _ => String::from_str(alloc, "no call"),
    }
}

// The result of reading: the program, or the refusal.
fn read_whole(alloc: Global, made: &Writing) -> Result<String, Memory> {
    match outcome_of(alloc, &made.text)? {
        Outcome::Program(text) => Ok(text),
        Outcome::Refused(kind, at) => refusal(alloc, kind, at, made.mark),
    }
}

// The same result, without the text of a program.
fn read_shortly(alloc: Global, made: &Writing) -> Result<String, Memory> {
    match outcome_of(alloc, &made.text)? {
        Outcome::Program(_) => String::from_str(alloc, "read"),
        Outcome::Refused(kind, at) => refusal(alloc, kind, at, made.mark),
    }
}

// A refusal; its byte is `@` if it is the marked one.
fn refusal(alloc: Global, kind: &str, at: u64, mark: Option<usize>) -> Result<String, Memory> {
    if mark.is_some_and(|marked| marked as u64 == at) {
        format!(in alloc; "{kind} at @")
    } else {
        format!(in alloc; "{kind} at {at}")
    }
}
