//! Reads made runs, and replays them. The program has one rule, which adds a free variable to each of its values.

ghost use Rattle.std.specs.Prelude.{◌≡◌, length};
ghost use Rattle.its_model.specs.model.Programs.{arity_of};
ghost use Rattle.its_model.specs.Valid.{IsValid};
ghost use Rattle.its_model.specs.Views.{program_of};

use itoa::Buffer;
use its_model::Program;
use its_reader::read;
use run_replay::{RunFile, read_run, replay};
use std::alloc::{AllocError, Global};

// The arguments of a symbol, each followed by what is added to it.
fn push_arguments(text: &mut Vec<u8>, places: u32, added: &[u8]) -> Result<(), AllocError> {
    for place in 0..places {
        text.push(if place == 0 { b'(' } else { b',' })?;
        text.push(b'A')?;
        let mut buffer = Buffer::new();
        text.extend_from_slice(buffer.format(place).as_bytes())?;
        text.extend_from_slice(added)?;
    }
    text.push(b')')?;
    Ok(())
}

// The text of the program with this many values.
fn program_text(alloc: Global, places: u32) -> Result<Vec<u8>, AllocError> {
    let mut text = b"(STARTTERM (FUNCTIONSYMBOLS l0))(RULES l0".to_vec(alloc)?;
    push_arguments(&mut text, places, b"")?;
    text.extend_from_slice(b" -> Com_1(l0")?;
    push_arguments(&mut text, places, b"+C")?;
    text.extend_from_slice(b"))")?;
    Ok(text)
}

// The text of a run of this program with this many steps.
fn run_text(alloc: Global, places: u32, steps: u32) -> Result<Vec<u8>, AllocError> {
    let mut text = b"koat-run 1\nstart".to_vec(alloc)?;
    for _ in 0..places {
        text.extend_from_slice(b" 5")?;
    }
    text.push(b'\n')?;
    for _ in 0..steps {
        text.extend_from_slice(b"step 1 -7\n")?;
    }
    text.extend_from_slice(b"end\n")?;
    Ok(text)
}

/// How many steps are read of the file of a run of one value and this many steps, the last of this many times; 0 if it
/// isn't read.
pub(crate) fn steps_read(alloc: Global, steps: u32, times: u32) -> Result<u64, AllocError> {
    let program = program_text(alloc, 1)?;
    let run = run_text(alloc, 1, steps)?;
    let mut found = 0;
    if let Ok(program) = read(alloc, &program) {
        for _ in 0..times {
            found = match read_run(alloc, &program, &run) {
                Ok(file) => file.steps.len() as u64,
                Err(_) => 0,
            };
        }
    }
    Ok(found)
}

/// How many steps are counted along a run of 32 values and this many steps, the last of this many times; 0 if it isn't
/// replayed.
pub(crate) fn steps_replayed(alloc: Global, steps: u32, times: u32) -> Result<u64, AllocError> {
    let program = program_text(alloc, 32)?;
    let run = run_text(alloc, 32, steps)?;
    match read(alloc, &program) {
        Ok(program) => match read_run(alloc, &program, &run) {
            Ok(file) => Ok(measure_replay(alloc, &program, &file, times)),
            Err(_) => Ok(0),
        },
        Err(_) => Ok(0),
    }
}

// How many steps are counted at the last time.
fn measure_replay(alloc: Global, program: &Program, file: &RunFile, times: u32) -> u64
    requires valid { IsValid (program_of program.now) }
    requires start { length file.now.start.items ≡ arity_of (program_of program.now) (program_of program.now).start }
{
    let mut found = 0;
    for _ in 0..times {
        found = match replay(alloc, program, file) {
            Ok(tally) => tally.steps,
            Err(_) => 0,
        };
    }
    found
}
