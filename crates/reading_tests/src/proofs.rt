//! Proof files: a line is rules, and after a `;` a proof file in which `|` stands for a line feed.

ghost use Rattle.its_model.specs.Valid.{IsValid};
ghost use Rattle.its_model.specs.Views.{program_of};

use crate::over_first::are_over_first;
use crate::runs::bytes_of;
use crate::writing::{Frame, text_of};
use cert_text::{ProofTextError, print, read as read_proof};
use cert_types::ProofFile;
use its_model::Program;
use its_reader::read;
use model::Memory;
use std::alloc::{AllocError, Global};

/// Which facts of a file are written.
#[derive(Clone, Copy)]
pub(crate) enum WrittenFacts {
    /// How many lemmas and gaps it has.
    Counts,
    /// The same, and whether it is printed as the same bytes.
    Print,
}

/// The result of reading a proof file of a program: facts of the file, or the refusal. Where the program's text is
/// refused there is no program.
pub(crate) fn proved(
    alloc: Global,
    line: &str,
    written_facts: WrittenFacts,
) -> Result<String, Memory> {
    match line.split_once(';') {
        Some((rules, proof)) => {
            let program = text_of(alloc, Frame::Rules, rules)?.text;
            match read(alloc, &program) {
                Ok(program) => answer(alloc, &program, &bytes_of(alloc, "", proof)?, written_facts),
                Err(_) => String::from_str(alloc, "no program"),
            }
        }
        None => String::from_str(alloc, "no proof"),
    }
}

fn answer(
    alloc: Global,
    program: &Program,
    proof: &[u8],
    written_facts: WrittenFacts,
) -> Result<String, Memory>
    requires { IsValid (program_of program.now) }
{
    match read_proof(alloc, program, proof) {
        Ok(file) => taken(alloc, program, &file, proof, written_facts),
        Err(ProofTextError::Syntax { at }) => format!(in alloc; "Syntax at {at}"),
        Err(ProofTextError::NumberTooLarge { at }) => format!(in alloc; "NumberTooLarge at {at}"),
        Err(ProofTextError::TooDeep { at }) => format!(in alloc; "TooDeep at {at}"),
        Err(ProofTextError::BadReference { at }) => format!(in alloc; "BadReference at {at}"),
        Err(ProofTextError::Limit { at }) => format!(in alloc; "Limit at {at}"),
        Err(ProofTextError::Memory) => Err(AllocError),
    }
}

// The facts of a file that was read from these bytes.
fn taken(
    alloc: Global,
    program: &Program,
    file: &ProofFile,
    bytes: &[u8],
    written_facts: WrittenFacts,
) -> Result<String, Memory> {
    let (lemmas, gaps) = (file.lemmas.len(), file.gaps.len());
    match written_facts {
        WrittenFacts::Counts => format!(in alloc; "lemmas {lemmas}, gaps {gaps}"),
        WrittenFacts::Print => {
            let text = text_again(alloc, program, file, bytes)?;
            format!(in alloc; "lemmas {lemmas}, gaps {gaps}, {text}")
        }
    }
}

// Whether a file is printed as the same bytes.
fn text_again(
    alloc: Global,
    program: &Program,
    file: &ProofFile,
    bytes: &[u8],
) -> Result<&'static str, Memory> {
    if !are_over_first(program.start_names.len(), &file.lemmas) {
        return Ok("over other names");
    }
    let text = print(alloc, program, file)?;
    if text.as_slice() == bytes {
        Ok("same")
    } else {
        Ok("other bytes")
    }
}
