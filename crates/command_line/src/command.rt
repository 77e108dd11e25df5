//! The commands.

ghost use Rattle.std.specs.Prelude.{◌≡◌, ◌≢◌, MatchOption};
ghost use Rattle.command_line.specs.Requests.{word_of};

use crate::kind::is_same;
use crate::task::{FileTask, NumberTask, PairTask, ProgramTask};

/// The commands, by the form of what follows their word. The word of a command is the first of a command line.
#[derive(Clone, Copy)]
pub(crate) enum Command {
    /// A file with a program, and the option.
    OfProgram(ProgramTask),
    /// A file with a program, and another file.
    OfPair(PairTask),
    /// A number.
    OfNumber(NumberTask),
    /// A file of another kind.
    OfFile(FileTask),
    /// A file with a while program, and the option.
    While,
}

/// The command that a word is.
pub(crate) fn command_named(word: &[u8]) -> Option<Command>
    ensures { MatchOption result ((c : Command) → word.now ≢ word_of c) (λ c. word.now ≡ word_of c) }
{
    if is_same(word, b"analyse") {
        Some(Command::OfProgram(ProgramTask::Analyse))
    } else if is_same(word, b"prove") {
        Some(Command::OfProgram(ProgramTask::Prove))
    } else if is_same(word, b"check") {
        Some(Command::OfPair(PairTask::Check))
    } else if is_same(word, b"replay") {
        Some(Command::OfPair(PairTask::Replay))
    } else if is_same(word, b"generate") {
        Some(Command::OfNumber(NumberTask::Generate))
    } else if is_same(word, b"selfrun") {
        Some(Command::OfNumber(NumberTask::Selfrun))
    } else if is_same(word, b"facts") {
        Some(Command::OfProgram(ProgramTask::Facts))
    } else if is_same(word, b"best") {
        Some(Command::OfProgram(ProgramTask::Best))
    } else if is_same(word, b"certify") {
        Some(Command::OfProgram(ProgramTask::Certify))
    } else if is_same(word, b"lasso") {
        Some(Command::OfPair(PairTask::Lasso))
    } else if is_same(word, b"lp") {
        Some(Command::OfFile(FileTask::Lp))
    } else if is_same(word, b"while") {
        Some(Command::While)
    } else if is_same(word, b"translate") {
        Some(Command::OfFile(FileTask::Translate))
    } else {
        None
    }
}
