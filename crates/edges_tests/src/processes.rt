//! How a process ends, and the codes of the statuses.

use crate::calls::ample_sink;
use crate::words::{push_bytes, push_item, words_of};
use koat_cli::{Status, run_program};
use model::Memory;
use outside_io::MemoryShelf;
use std::alloc::Global;
use std::io;
use std::io::ErrorKind;
use std::process::ExitCode;

/// The exit code of a process and what it writes, on an empty shelf. After `process` follow the words that the system
/// gives, the program's name first, and after `process-error` the kind of the error that it gives instead.
pub(crate) fn process_end(alloc: Global, call: &str, operands: &str) -> Result<String, Memory> {
    let words = given_words(alloc, call, operands)?;
    let mut shelf = MemoryShelf::new(Vec::new(alloc), Vec::new(alloc));
    let mut sink = ample_sink(alloc, Vec::new(alloc))?;
    let code = code_of(run_program(alloc, words, &mut shelf, &mut sink));
    let mut text = format!(in alloc; "{code}: ")?;
    push_bytes(&mut text, sink.bytes())?;
    Ok(text)
}

// The words, or the error, that the system gives.
fn given_words(
    alloc: Global,
    call: &str,
    operands: &str,
) -> Result<io::Result<Vec<String>>, Memory> {
    match (call, operands) {
        ("process", _) => Ok(Ok(words_of(alloc, operands)?)),
        (_, "InvalidData") => Ok(Err(io::Error::from(ErrorKind::InvalidData))),
        (_, "OutOfMemory") => Ok(Err(io::Error::from(ErrorKind::OutOfMemory))),
        _ => Ok(Err(io::Error::from(ErrorKind::Other))),
    }
}

// The number of an exit code.
fn code_of(ended: ExitCode) -> u8 {
    for code in 0..u8::MAX {
        if ended == ExitCode::from(code) {
            return code;
        }
    }
    u8::MAX
}

/// The code of each status.
pub(crate) fn status_codes(alloc: Global) -> Result<String, Memory> {
    let all = [
        Status::Done,
        Status::Unknown,
        Status::Usage,
        Status::ReadFault,
        Status::WriteFault,
        Status::Memory,
        Status::ProgramRefused,
        Status::ProofRefused,
        Status::NotAccepted,
        Status::RunRefused,
        Status::NotARun,
    ];
    let mut text = String::new(alloc);
    for status in all {
        let code = status.code();
        push_item(&mut text, &format!(in alloc; "{status:?} {code}")?)?;
    }
    Ok(text)
}
