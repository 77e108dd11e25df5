//! The results for lassos whose turns are to move on.

ghost use Rattle.its_model.specs.Valid.{IsValid};
ghost use Rattle.its_model.specs.Views.{program_of};

use crate::turns::{push_cost, push_rules, refusal_text};
use itoa::Buffer;
use model::Memory;
use moving_check::{Moving, MovingError, Program, check_moving, read_moving};
use std::alloc::{AllocError, Global};

/// By how much the turn of a lasso of the program moves on, with its rules and the cost of the first turn; or why this
/// isn't shown.
pub(crate) fn answer_moving(
    alloc: Global,
    program: &Program,
    lasso: &[u8],
) -> Result<String, Memory>
    requires { IsValid (program_of program.now) }
{
    match read_moving(alloc, program, lasso) {
        Ok(file) => match check_moving(alloc, program, &file) {
            Ok(moving) => moving_line(alloc, &moving),
            Err(error) => error_line(alloc, &error),
        },
        Err(error) => refusal_text(alloc, &error),
    }
}

fn error_line(alloc: Global, error: &MovingError) -> Result<String, Memory> {
    match error {
        MovingError::WrongRule { step } => format!(in alloc; "WrongRule at {step}"),
        MovingError::GuardFails { step, atom } => {
            format!(in alloc; "GuardFails at {step}, atom {atom}")
        }
        MovingError::PassedRange { step } => format!(in alloc; "PassedRange at {step}"),
        MovingError::OtherSymbol => String::from_str(alloc, "OtherSymbol"),
        MovingError::DifferencePasses { place } => {
            format!(in alloc; "DifferencePasses at {place}")
        }
        MovingError::AtomStops { step, atom } => {
            format!(in alloc; "AtomStops at {step}, atom {atom}")
        }
        MovingError::NonlinearPlace { step, place } => {
            format!(in alloc; "PlaceBends at {step}, place {place}")
        }
        MovingError::DifferenceChanges { place } => {
            format!(in alloc; "DifferenceChanges at {place}")
        }
        MovingError::Memory => Err(AllocError),
    }
}

// The differences, and after a `:` the rules and the cost.
fn moving_line(alloc: Global, moving: &Moving) -> Result<String, Memory> {
    let mut out = Vec::from_slice(alloc, b"moves")?;
    for difference in &moving.differences {
        out.push(b' ')?;
        out.extend_from_slice(Buffer::new().format(*difference).as_bytes())?;
    }
    out.extend_from_slice(b" : ")?;
    push_rules(&mut out, &moving.rules)?;
    push_cost(&mut out, moving.cost)?;
    String::from_str(alloc, str::from_utf8(&out).unwrap_or("no text"))
}
