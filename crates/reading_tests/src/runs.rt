//! Run files: a line is a text in which `|` stands for a line feed and `~` for a carriage return.

use itoa::Buffer;
use its_model::{Program, Step};
use its_reader::read;
use model::Memory;
use run_replay::{RunFile, RunTextError, read_run};
use std::alloc::{AllocError, Global};

// Two start places, and two rules, of which the second one has a free variable.
const PROGRAM: &[u8] =
    b"(STARTTERM (FUNCTIONSYMBOLS l0))(RULES l0(A,B) -> Com_1(l1(A)) l1(A) -> Com_1(l1(C)))";

// No start place.
const PLACELESS: &[u8] = b"(STARTTERM (FUNCTIONSYMBOLS l0))(RULES l0() -> Com_1(l0()))";

/// The result of reading a whole text: the start values and the steps, or the refusal.
pub(crate) fn run(alloc: Global, text: &str) -> Result<String, Memory> {
    answer(alloc, PROGRAM, &bytes_of(alloc, "", text)?)
}

/// The same result, for a program whose start symbol has no places.
pub(crate) fn placeless_run(alloc: Global, text: &str) -> Result<String, Memory> {
    answer(alloc, PLACELESS, &bytes_of(alloc, "", text)?)
}

/// The same result, for a text after the first line and that of two start values.
pub(crate) fn steps(alloc: Global, text: &str) -> Result<String, Memory> {
    answer(
        alloc,
        PROGRAM,
        &bytes_of(alloc, "koat-run 1|start 1 2|", text)?,
    )
}

/// How many prefixes of a text are refused at their end as ending too early, of how many.
pub(crate) fn run_beginnings(alloc: Global, text: &str) -> Result<String, Memory> {
    let bytes = bytes_of(alloc, "", text)?;
    let program = program_of(alloc, PROGRAM)?;
    let mut early = 0usize;
    for len in 0..bytes.len() {
        let beginning = bytes.get(..len).unwrap_or(b"");
        if let Err(RunTextError::Syntax { at }) = read_run(alloc, &program, beginning) {
            if at == len as u64 {
                early = early.saturating_add(1);
            }
        }
    }
    format!(in alloc; "{early} of {}", bytes.len())
}

// The byte of the text that a byte of the line represents.
fn meant(byte: u8) -> u8 {
    match byte {
        b'|' => b'\n',
        b'~' => b'\r',
        other => other,
    }
}

/// A text in bytes after another one, in which `|` stands for a line feed and `~` for a carriage return.
pub(crate) fn bytes_of(alloc: Global, before: &str, text: &str) -> Result<Vec<u8>, Memory> {
    let mut bytes = Vec::new(alloc);
    for byte in before.as_bytes() {
        bytes.push(meant(*byte))?;
    }
    for byte in text.as_bytes() {
        bytes.push(meant(*byte))?;
    }
    Ok(bytes)
}

fn program_of(alloc: Global, text: &[u8]) -> Result<Program, Memory> {
    read(alloc, text).map_err(|_| AllocError)
}

fn answer(alloc: Global, program: &[u8], bytes: &[u8]) -> Result<String, Memory> {
    let program = program_of(alloc, program)?;
    match read_run(alloc, &program, bytes) {
        Ok(file) => written(alloc, &file),
        Err(RunTextError::Syntax { at }) => format!(in alloc; "Syntax at {at}"),
        Err(RunTextError::NumberTooLarge { at }) => format!(in alloc; "NumberTooLarge at {at}"),
        Err(RunTextError::BadReference { at }) => format!(in alloc; "BadReference at {at}"),
        Err(RunTextError::ArityDiffers { at }) => format!(in alloc; "ArityDiffers at {at}"),
        Err(RunTextError::Limit { at }) => format!(in alloc; "Limit at {at}"),
        Err(RunTextError::Memory) => Err(AllocError),
    }
}

fn written(alloc: Global, file: &RunFile) -> Result<String, Memory> {
    let mut out = Vec::new(alloc);
    out.extend_from_slice(b"start")?;
    push_values(&mut out, &file.start)?;
    for step in &file.steps {
        push_step(&mut out, step)?;
    }
    String::from_str(alloc, str::from_utf8(&out).unwrap_or("no text"))
}

fn push_step(out: &mut Vec<u8>, step: &Step) -> Result<(), Memory> {
    out.extend_from_slice(b" |")?;
    push_value(out, i128::from(step.rule))?;
    push_values(out, &step.free)
}

fn push_values(out: &mut Vec<u8>, values: &[i128]) -> Result<(), Memory> {
    for value in values {
        push_value(out, *value)?;
    }
    Ok(())
}

/// Appends a blank and a value.
pub(crate) fn push_value(out: &mut Vec<u8>, value: i128) -> Result<(), Memory> {
    out.push(b' ')?;
    let mut buffer = Buffer::new();
    out.extend_from_slice(buffer.format(value).as_bytes())?;
    Ok(())
}
