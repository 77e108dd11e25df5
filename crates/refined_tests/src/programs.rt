//! Programs of some rules, and the rows of their rules.

ghost use Rattle.std.specs.Prelude.{IfOk, IfSome};
ghost use Rattle.its_model.specs.Valid.{IsValid};
ghost use Rattle.its_model.specs.Views.{program_of};

use guard_prep::{RuleRows, rows};
use its_model::Program;
use its_reader::{ReadError, read};
use model::Memory;
use std::alloc::{AllocError, Global};

/// The program with these rules, from `a`, if they are read.
pub(crate) fn program(alloc: Global, rules: &str) -> Result<Option<Program>, Memory>
    ensures { IfOk result (λ read. IfSome read (λ p. IsValid (program_of p))) }
{
    let mut text = b"(STARTTERM (FUNCTIONSYMBOLS a))(RULES ".to_vec(alloc)?;
    text.extend_from_slice(rules.as_bytes())?;
    text.push(b')')?;
    match read(alloc, &text) {
        Ok(p) => Ok(Some(p)),
        Err(ReadError::Memory) => Err(AllocError),
        Err(_) => Ok(None),
    }
}

/// The rows of each rule, in order.
pub(crate) fn all_rows(alloc: Global, p: &Program) -> Result<Vec<RuleRows>, Memory>
    requires { IsValid (program_of p.now) }
{
    let mut prepared_rules = Vec::new(alloc);
    for rule in &p.rules {
        prepared_rules.push(rows(alloc, rule)?)?;
    }
    Ok(prepared_rules)
}
