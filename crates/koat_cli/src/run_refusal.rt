//! The texts of refusals of a run.

ghost use Rattle.std.specs.Prelude.{◌≡◌, ◌++◌, IfOk, IfSome, IsErr, None, OnOk};
ghost use Rattle.run_replay.specs.ReplayAnswers.{bad_step_of};
ghost use Rattle.run_replay.specs.Views.{refusal_in};
ghost use Rattle.koat_cli.specs.RunTexts.{run_refusal_line, run_refusal_text, bad_step_line, bad_step_text};
ghost use Rattle.koat_cli.specs.RunTexts.{fault_text};
ghost use Rattle.its_model.specs.Steps.{AtomFails};

use itoa::Buffer;
use model::Memory;
use run_replay::{ReplayError, RunTextError};
use std::alloc::{AllocError, Global};

/// The first fault of a run's text, and its byte.
///
/// # Errors
///
/// `Memory` where an allocation fails, and where the text wasn't read because memory ran out.
pub(crate) fn run_refusal(alloc: Global, error: &RunTextError) -> Result<Vec<u8>, Memory>
    ensures result_is { IfOk result (λ text. IfSome (refusal_in error.now) (λ x. text.items ≡ run_refusal_text x)) }
    ensures memory { refusal_in error.now ≡ None → IsErr result }
{
    match error {
        RunTextError::Syntax { at } => refusal_line_at(alloc, *at, b"Syntax"),
        RunTextError::NumberTooLarge { at } => refusal_line_at(alloc, *at, b"NumberTooLarge"),
        RunTextError::BadReference { at } => refusal_line_at(alloc, *at, b"BadReference"),
        RunTextError::ArityDiffers { at } => refusal_line_at(alloc, *at, b"ArityDiffers"),
        RunTextError::Limit { at } => refusal_line_at(alloc, *at, b"Limit"),
        RunTextError::Memory => Err(AllocError),
    }
}

// The text of a refusal at this byte.
fn refusal_line_at(alloc: Global, at: u64, kind: &[u8]) -> Result<Vec<u8>, Memory>
    ensures { IfOk result (λ text. text.items ≡ run_refusal_line at kind.now) }
{
    let mut text = Vec::from_slice(alloc, b"run refused at ")?;
    text.extend_from_slice(Buffer::new().format(at).as_bytes())?;
    text.extend_from_slice(b": ")?;
    text.extend_from_slice(kind)?;
    text.extend_from_slice(b"\n")?;
    Ok(text)
}

/// The first bad step of a run, and its fault.
///
/// # Errors
///
/// `Memory` where an allocation fails, and where the run wasn't replayed because memory ran out.
pub(crate) fn bad_step(alloc: Global, error: &ReplayError) -> Result<Vec<u8>, Memory>
    ensures result_is { IfOk result (λ text. IfSome (bad_step_of error.now) (λ bad. text.items ≡ bad_step_text bad)) }
    ensures memory { bad_step_of error.now ≡ None → IsErr result }
{
    match error {
        ReplayError::WrongRule { step } => bad_step_at(alloc, *step, b"wrong rule"),
        ReplayError::GuardFails { step, atom } => {
            let fault = failed_atom_text(alloc, *atom)?;
            bad_step_at(alloc, *step, &fault)
        }
        ReplayError::PassedRange { step } => bad_step_at(alloc, *step, b"value passes 128 bits"),
        ReplayError::Memory => Err(AllocError),
    }
}

/// The number of the atom that doesn't hold.
pub(crate) fn failed_atom_text(alloc: Global, atom: u32) -> Result<Vec<u8>, Memory>
    ensures { IfOk result (λ text. text.items ≡ fault_text (AtomFails atom)) }
{
    let mut text = Vec::from_slice(alloc, b"atom ")?;
    text.extend_from_slice(Buffer::new().format(atom).as_bytes())?;
    Ok(text)
}

/// The text of the step with this number, with this fault.
pub(crate) fn bad_step_at(alloc: Global, step: u64, fault: &[u8]) -> Result<Vec<u8>, Memory>
    ensures { IfOk result (λ text. text.items ≡ bad_step_line step fault.now) }
{
    let mut text = Vec::from_slice(alloc, b"not a run at step ")?;
    text.extend_from_slice(Buffer::new().format(step).as_bytes())?;
    text.extend_from_slice(b": ")?;
    text.extend_from_slice(fault)?;
    text.extend_from_slice(b"\n")?;
    Ok(text)
}
