//! Programs of some rules.

ghost use Rattle.std.specs.Prelude.{IfOk, IfSome};
ghost use Rattle.its_model.specs.Valid.{IsValid};
ghost use Rattle.its_model.specs.Views.{program_of};

use check_potentials::Memory;
use its_model::Program;
use its_reader::{ReadError, read};
use std::alloc::{AllocError, Global};

/// The program with these rules, from `a`, where they are read.
pub(crate) fn program(alloc: Global, rules: &str) -> Result<Option<Program>, Memory>
    ensures { IfOk result (λ read. IfSome read (λ p. IsValid (program_of p))) }
{
    let mut text = b"(STARTTERM (FUNCTIONSYMBOLS a))(RULES ".to_vec(alloc)?;
    text.extend_from_slice(rules.as_bytes())?;
    text.push(b')')?;
    match read(alloc, &text) {
        Ok(p) => Ok(Some(p)),
        Err(ReadError::Memory) => Err(AllocError),
        Err(_) => Ok(None),
    }
}
