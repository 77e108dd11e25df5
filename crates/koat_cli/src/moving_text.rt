//! The texts of answers on a turn that is to move on.

ghost use Rattle.std.specs.Prelude.{◌≡◌, ◌++◌, map, IfOk, IfSome, IsErr, None, OnOk};
ghost use Rattle.std.specs.Fmt.{signed_decimal};
ghost use Rattle.lasso_forms.specs.moving_check.Answers.{moving_of};
ghost use Rattle.lasso_forms.specs.Views.{obstacle_to_on};
ghost use Rattle.report_text.specs.Pieces.{parts_text, with_commas, with_commas_before};
ghost use Rattle.koat_cli.specs.LassoTexts.{on_text, moves_line, stop_line, difference_text, obstacle_text};

use crate::lasso_answer::{push_cost, push_rules};
use crate::run_refusal::{bad_step_at, failed_atom_text};
use itoa::Buffer;
use lasso_forms::{Moving, MovingError};
use model::Memory;
use std::alloc::{AllocError, Global};

/// The text of a turn that moves on.
pub(crate) fn moving_lines(alloc: Global, moving: &Moving) -> Result<Vec<u8>, Memory>
    ensures { IfOk result (λ text. text.items ≡ on_text (moving_of moving.now)) }
{
    let mut text = Vec::from_slice(alloc, b"endless\n")?;
    push_moves(&mut text, &moving.differences)?;
    push_rules(&mut text, &moving.rules)?;
    push_cost(&mut text, moving.cost)?;
    Ok(text)
}

// The line of the differences.
fn push_moves(text: &mut Vec<u8>, differences: &[i128]) -> Result<(), Memory>
    ensures { OnOk result (text.new.items ≡ text.old.items ++ moves_line differences.now) }
{
    text.extend_from_slice(b"moves ")?;
    push_parts(text, differences)?;
    text.extend_from_slice(b"\n")
}

// Numbers, in brackets.
fn push_parts(text: &mut Vec<u8>, parts: &[i128]) -> Result<(), Memory>
    ensures { OnOk result (text.new.items ≡ text.old.items ++ parts_text parts.now) }
{
    text.extend_from_slice(b"(")?;
    push_with_commas(text, parts)?;
    text.extend_from_slice(b")")
}

// Numbers, with a comma and a blank between them.
fn push_with_commas(text: &mut Vec<u8>, parts: &[i128]) -> Result<(), Memory>
    ensures { OnOk result (text.new.items ≡ text.old.items ++ with_commas (map signed_decimal parts.now)) }
{
    let Some((first, others)) = parts.split_first() else {
        return Ok(());
    };
    push_signed(text, *first)?;
    push_after_commas(text, others)
}

// A comma and a blank before each number.
fn push_after_commas(text: &mut Vec<u8>, parts: &[i128]) -> Result<(), Memory>
    ensures { OnOk result (text.new.items ≡ text.old.items ++ with_commas_before (map signed_decimal parts.now)) }
{
    for part in parts {
        text.extend_from_slice(b", ")?;
        push_signed(text, *part)?;
    }
    Ok(())
}

// A number with its sign.
fn push_signed(text: &mut Vec<u8>, n: i128) -> Result<(), Memory>
    ensures { OnOk result (text.new.items ≡ text.old.items ++ signed_decimal n) }
{
    text.extend_from_slice(Buffer::new().format(n).as_bytes())
}

/// The text of the first bad step, and of a turn that isn't shown to move on.
pub(crate) fn stop_lines(alloc: Global, error: &MovingError) -> Result<Vec<u8>, Memory>
    ensures result_is { IfOk result (λ text.
        IfSome (obstacle_to_on error.now) (λ o. text.items ≡ obstacle_text o)) }
    ensures memory { obstacle_to_on error.now ≡ None → IsErr result }
{
    match error {
        MovingError::WrongRule { step } => bad_step_at(alloc, *step, b"wrong rule"),
        MovingError::GuardFails { step, atom } => {
            let fault = failed_atom_text(alloc, *atom)?;
            bad_step_at(alloc, *step, &fault)
        }
        MovingError::PassedRange { step } => bad_step_at(alloc, *step, b"value passes 128 bits"),
        MovingError::OtherSymbol => Vec::from_slice(alloc, b"not seen to move on: other symbol\n"),
        MovingError::DifferencePasses { place } => {
            difference_at(alloc, *place, b" passes 128 bits")
        }
        MovingError::AtomStops { step, atom } => unrepeatable_step_text(
            alloc, *step, b"atom ", *atom,
        ),
        MovingError::NonlinearPlace { step, place } => unrepeatable_step_text(
            alloc, *step, b"place ", *place,
        ),
        MovingError::DifferenceChanges { place } => difference_at(alloc, *place, b" changes"),
        MovingError::Memory => Err(AllocError),
    }
}

// The text of a step for which it isn't shown that it can be repeated, by an atom or a place.
fn unrepeatable_step_text(
    alloc: Global,
    step: u64,
    what: &[u8],
    number: u64,
) -> Result<Vec<u8>, Memory>
    ensures { IfOk result (λ text. text.items ≡ stop_line step what.now number) }
{
    let mut text = Vec::from_slice(alloc, b"not seen to move on at step ")?;
    text.extend_from_slice(Buffer::new().format(step).as_bytes())?;
    text.extend_from_slice(b": ")?;
    text.extend_from_slice(what)?;
    text.extend_from_slice(Buffer::new().format(number).as_bytes())?;
    text.extend_from_slice(b"\n")?;
    Ok(text)
}

// The text of a place whose difference isn't the same for each turn.
fn difference_at(alloc: Global, place: u64, what: &[u8]) -> Result<Vec<u8>, Memory>
    ensures { IfOk result (λ text. text.items ≡ difference_text place what.now) }
{
    let mut text = Vec::from_slice(alloc, b"not seen to move on: difference at place ")?;
    text.extend_from_slice(Buffer::new().format(place).as_bytes())?;
    text.extend_from_slice(what)?;
    text.extend_from_slice(b"\n")?;
    Ok(text)
}
