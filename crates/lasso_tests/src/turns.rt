//! Lassos: a line is rules, and after a `;` a lasso file in which `|` stands for a line feed.

use crate::moving::answer_moving;
use itoa::Buffer;
use its_reader::read;
use lasso_check::{LassoError, LassoTextError, Turn, check_lasso, read_lasso};
use model::Memory;
use moving_check::is_moving_form;
use std::alloc::{AllocError, Global};

/// The result for the lasso of a program with these rules, which starts at `l0`: the rules of its turn and what the
/// turn costs, after the differences if its text is of the second form; or its first bad step, or why the turn isn't
/// one of a lasso. If the program's text is refused there is no program, and if the lasso's is, the refusal.
pub(crate) fn answer_line(alloc: Global, line: &str) -> Result<String, Memory> {
    match line.split_once(';') {
        Some((rules, lasso)) => {
            let program = program_text(alloc, rules)?;
            lasso_result(alloc, &program, &lasso_text(alloc, lasso)?)
        }
        None => String::from_str(alloc, line),
    }
}

// The text of a program with these rules.
fn program_text(alloc: Global, rules: &str) -> Result<Vec<u8>, Memory> {
    let mut text = Vec::from_slice(alloc, b"(STARTTERM (FUNCTIONSYMBOLS l0))(RULES ")?;
    text.extend_from_slice(rules.as_bytes())?;
    text.extend_from_slice(b")")?;
    Ok(text)
}

// The text with a line feed in place of each `|`.
fn lasso_text(alloc: Global, text: &str) -> Result<Vec<u8>, Memory> {
    let mut bytes = Vec::new(alloc);
    for byte in text.as_bytes() {
        bytes.push(if *byte == b'|' { b'\n' } else { *byte })?;
    }
    Ok(bytes)
}

fn lasso_result(alloc: Global, program: &[u8], lasso: &[u8]) -> Result<String, Memory> {
    match read(alloc, program) {
        Ok(program) if is_moving_form(lasso) => answer_moving(alloc, &program, lasso),
        Ok(program) => match read_lasso(alloc, &program, lasso) {
            Ok(file) => turn_result_line(alloc, &check_lasso(alloc, &program, &file)),
            Err(error) => refusal_text(alloc, &error),
        },
        Err(_) => String::from_str(alloc, "no program"),
    }
}

/// A refusal.
pub(crate) fn refusal_text(alloc: Global, error: &LassoTextError) -> Result<String, Memory> {
    match error {
        LassoTextError::Syntax { at } => format!(in alloc; "Syntax at {at}"),
        LassoTextError::NumberTooLarge { at } => format!(in alloc; "NumberTooLarge at {at}"),
        LassoTextError::BadReference { at } => format!(in alloc; "BadReference at {at}"),
        LassoTextError::ArityDiffers { at } => format!(in alloc; "ArityDiffers at {at}"),
        LassoTextError::Limit { at } => format!(in alloc; "Limit at {at}"),
        LassoTextError::Memory => Err(AllocError),
    }
}

fn turn_result_line(alloc: Global, checked: &Result<Turn, LassoError>) -> Result<String, Memory> {
    match checked {
        Ok(turn) => turn_line(alloc, turn),
        Err(LassoError::WrongRule { step }) => format!(in alloc; "WrongRule at {step}"),
        Err(LassoError::GuardFails { step, atom }) => {
            format!(in alloc; "GuardFails at {step}, atom {atom}")
        }
        Err(LassoError::PassedRange { step }) => format!(in alloc; "PassedRange at {step}"),
        Err(LassoError::Open { place }) => format!(in alloc; "Open at {place}"),
        Err(LassoError::Memory) => Err(AllocError),
    }
}

// The rules of a turn, and after a `:` what it costs.
fn turn_line(alloc: Global, turn: &Turn) -> Result<String, Memory> {
    let mut out = Vec::new(alloc);
    push_rules(&mut out, &turn.rules)?;
    push_cost(&mut out, turn.cost)?;
    String::from_str(alloc, str::from_utf8(&out).unwrap_or("no text"))
}

/// Writes rules.
pub(crate) fn push_rules(out: &mut Vec<u8>, rules: &[u32]) -> Result<(), Memory> {
    out.extend_from_slice(b"rules")?;
    for rule in rules {
        out.push(b' ')?;
        out.extend_from_slice(Buffer::new().format(*rule).as_bytes())?;
    }
    Ok(())
}

/// Writes a `:` and a cost.
pub(crate) fn push_cost(out: &mut Vec<u8>, cost: u128) -> Result<(), Memory> {
    out.extend_from_slice(b" : ")?;
    out.extend_from_slice(Buffer::new().format(cost).as_bytes())
}
