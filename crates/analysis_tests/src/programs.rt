//! Programs of some rules, and the inputs of the searches for them.

ghost use Rattle.std.specs.Prelude.{IfOk, IfSome};
ghost use Rattle.its_model.specs.Valid.{IsValid};
ghost use Rattle.its_model.specs.Views.{program_of};
ghost use Rattle.cert_types.specs.Composing.{AreRowsOf};

use guard_prep::{RuleRows, rows};
use its_model::Program;
use its_reader::{ReadError, read};
use model::Memory;
use std::alloc::{AllocError, Global};

/// The program with these rules, from l0, if they are read.
pub(crate) fn program(alloc: Global, rules: &str) -> Result<Option<Program>, Memory>
    ensures { IfOk result (λ read. IfSome read (λ p. IsValid (program_of p))) }
{
    let mut text = b"(STARTTERM (FUNCTIONSYMBOLS l0))(RULES ".to_vec(alloc)?;
    text.extend_from_slice(rules.as_bytes())?;
    text.push(b')')?;
    match read(alloc, &text) {
        Ok(p) => Ok(Some(p)),
        Err(ReadError::Memory) => Err(AllocError),
        Err(_) => Ok(None),
    }
}

/// The rows of each rule, in order.
pub(crate) fn all_rows(alloc: Global, p: &Program) -> Result<Vec<RuleRows>, Memory>
    requires { IsValid (program_of p.now) }
    ensures { IfOk result (λ prepared_rules. AreRowsOf prepared_rules.items (program_of p.now)) }
{
    let mut prepared_rules = Vec::new(alloc);
    for rule in &p.rules {
        prepared_rules.push(rows(alloc, rule)?)?;
    }
    Ok(prepared_rules)
}
