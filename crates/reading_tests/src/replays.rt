//! Replays: a line is rules, and after a `;` a run file in which `|` stands for a line feed.

use crate::runs::{bytes_of, push_value};
use crate::writing::{Frame, text_of};
use itoa::Buffer;
use its_reader::read;
use model::Memory;
use run_replay::{ReplayError, Tally, read_run, replay};
use std::alloc::{AllocError, Global};

/// The result of replaying a run of a program: how many steps it has, for each rule how often it occurs and the
/// greatest absolute values after it, then for each rule what its steps cost, and what all steps cost, up to 2^127; or
/// the first bad step. Where the program's text is refused there is no program, and where the run's is, no run.
pub(crate) fn replayed(alloc: Global, line: &str) -> Result<String, Memory> {
    match line.split_once(';') {
        Some((rules, run)) => {
            let program = text_of(alloc, Frame::Rules, rules)?.text;
            answer(alloc, &program, &bytes_of(alloc, "", run)?)
        }
        None => String::from_str(alloc, "no run"),
    }
}

fn answer(alloc: Global, program: &[u8], run: &[u8]) -> Result<String, Memory> {
    match read(alloc, program) {
        Ok(program) => match read_run(alloc, &program, run) {
            Ok(file) => replay_line(alloc, &replay(alloc, &program, &file)),
            Err(_) => String::from_str(alloc, "no run"),
        },
        Err(_) => String::from_str(alloc, "no program"),
    }
}

fn replay_line(alloc: Global, replayed: &Result<Tally, ReplayError>) -> Result<String, Memory> {
    match replayed {
        Ok(tally) => tallied(alloc, tally),
        Err(ReplayError::WrongRule { step }) => format!(in alloc; "WrongRule at {step}"),
        Err(ReplayError::GuardFails { step, atom }) => {
            format!(in alloc; "GuardFails at {step}, atom {atom}")
        }
        Err(ReplayError::PassedRange { step }) => format!(in alloc; "PassedRange at {step}"),
        Err(ReplayError::Memory) => Err(AllocError),
    }
}

fn tallied(alloc: Global, tally: &Tally) -> Result<String, Memory> {
    let mut out = Vec::new(alloc);
    out.extend_from_slice(b"steps")?;
    push_value(&mut out, i128::from(tally.steps))?;
    for (count, sizes) in tally.counts.iter().zip(tally.greatest.iter()) {
        out.extend_from_slice(b" |")?;
        push_value(&mut out, i128::from(*count))?;
        out.extend_from_slice(b" :")?;
        push_sizes(&mut out, sizes)?;
    }
    out.extend_from_slice(b" | costs")?;
    push_sizes(&mut out, &tally.costs)?;
    out.extend_from_slice(b" | spent")?;
    push_size(&mut out, tally.spent)?;
    String::from_str(alloc, str::from_utf8(&out).unwrap_or("no text"))
}

fn push_sizes(out: &mut Vec<u8>, sizes: &[u128]) -> Result<(), Memory> {
    for size in sizes {
        push_size(out, *size)?;
    }
    Ok(())
}

fn push_size(out: &mut Vec<u8>, size: u128) -> Result<(), Memory> {
    out.push(b' ')?;
    let mut buffer = Buffer::new();
    out.extend_from_slice(buffer.format(size).as_bytes())?;
    Ok(())
}
