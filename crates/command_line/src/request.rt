//! The request of a list of words.

ghost use Rattle.std.specs.Prelude.{◌≡◌, map, string_bytes, MatchOption, IfOk};
ghost use Rattle.command_line.specs.Requests as requests;
ghost use Rattle.command_line.specs.Requests.{HasRequest};
ghost use Rattle.command_line.specs.Steps.{values_in, positionals_in, IsRequestOfCommand, HaveNoRequest};
ghost use Rattle.command_line.specs.Views.{request_of};

use crate::command::{Command, command_named};
use crate::line::{Line, read_line};
use crate::operands::{OneFile, TwoFiles, file_alone, one_file, one_number, two_files};
use crate::task::{FileTask, NumberTask, PairTask, ProgramTask};
use model::Memory;
use std::alloc::Global;

/// The request of a command line: a task, and its operands. `pivots` is how many pivots each linear program may take,
/// up to 1,000,000, and `n` is at most 100.
#[derive(Debug, PartialEq, Eq, Drop)]
pub enum Request {
    /// A task for the program in a file.
    OfProgram {
        task: ProgramTask,
        pivots: u32,
        file: String,
    },
    /// A task for the program in a file and a second file about it.
    OfPair {
        task: PairTask,
        file: String,
        second: String,
    },
    /// A task for a number.
    OfNumber {
        task: NumberTask,
        n: u32,
    },
    /// A task for a file of another kind than a program's.
    OfFile {
        task: FileTask,
        file: String,
    },
    /// `while`: the analysis of the while program in a file.
    While {
        pivots: u32,
        file: String,
    },
}

/// The request of the words after the program's name; none if they are no command line.
///
/// # Errors
///
/// `Memory` where an allocation fails.
pub fn parse_request(alloc: Global, words: &[String]) -> Result<Option<Request>, Memory>
    ensures { IfOk result (λ asked. MatchOption asked
        ((request : requests.Request) → ¬ (HasRequest (map string_bytes words.now) request))
        (λ request. HasRequest (map string_bytes words.now) (request_of request))) }
{
    let Some((first, others)) = words.split_first() else {
        return Ok(None);
    };
    let Some(command) = command_named(first.as_bytes()) else {
        return Ok(None);
    };
    let Some(line) = read_line(alloc, others)? else {
        return Ok(None);
    };
    Ok(request_of_command(command, line))
}

// The request of a command with a line after it.
fn request_of_command(command: Command, line: Line) -> Option<Request>
    ensures { MatchOption result (HaveNoRequest command (values_in line) (positionals_in line))
        (λ request. IsRequestOfCommand command (values_in line) (positionals_in line) (request_of request)) }
{
    match command {
        Command::OfProgram(task) => {
            let OneFile { pivots, file } = one_file(line)?;
            Some(Request::OfProgram { task, pivots, file })
        }
        Command::OfPair(task) => {
            let TwoFiles { first, second } = two_files(line)?;
            Some(Request::OfPair {
                task,
                file: first,
                second,
            })
        }
        Command::OfNumber(task) => Some(Request::OfNumber {
            task,
            n: one_number(line)?,
        }),
        Command::OfFile(task) => Some(Request::OfFile {
            task,
            file: file_alone(line)?,
        }),
        Command::While => {
            let OneFile { pivots, file } = one_file(line)?;
            Some(Request::While { pivots, file })
        }
    }
}
