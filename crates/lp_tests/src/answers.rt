//! The answer to the file in a line.

ghost use Rattle.lp_text.specs.Spelled.{IsWithin};
ghost use Rattle.lp_text.specs.Views.{lp_of};

use lp_answer::{LpAnswer, answer_lp, refusal_text};
use lp_text::{WrittenLp, read_lp, read_written};
use std::alloc::{AllocError, Global};

/// The answer to a line.
pub(crate) fn answer(alloc: Global, line: &str) -> Result<String, AllocError> {
    if line.starts_with('#') {
        return String::from_str(alloc, line);
    }
    let bytes = with_line_feeds(alloc, line)?;
    match read_written(alloc, &bytes) {
        Ok(written) => solved(alloc, &bytes, &written),
        Err(error) => shown(alloc, "6: ", &refusal_text(alloc, &error)?),
    }
}

// The answer to a linear program with this text.
fn solved(alloc: Global, bytes: &[u8], written: &WrittenLp) -> Result<String, AllocError>
    requires { IsWithin (lp_of written.now) }
{
    let problem = written.to_problem(alloc)?;
    if read_lp(alloc, bytes) != Ok(problem) {
        return String::from_str(alloc, "another problem is read");
    }
    match answer_lp(alloc, written)? {
        LpAnswer::Ended(text) => shown(alloc, "0: ", &text),
        LpAnswer::Stopped(text) => shown(alloc, "1: ", &text),
    }
}

// The bytes of a line, with a line feed for each `|`.
fn with_line_feeds(alloc: Global, line: &str) -> Result<Vec<u8>, AllocError> {
    let mut bytes = Vec::new(alloc);
    for byte in line.as_bytes() {
        bytes.push(if *byte == b'|' { b'\n' } else { *byte })?;
    }
    Ok(bytes)
}

// A text after a status, with `|` for each line feed.
fn shown(alloc: Global, status: &str, text: &[u8]) -> Result<String, AllocError> {
    let mut line = String::from_str(alloc, status)?;
    for byte in text {
        line.push(if *byte == b'\n' {
            '|'
        } else {
            char::from(*byte)
        })?;
    }
    Ok(line)
}
