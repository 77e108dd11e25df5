//! The positions of a program's statements, as text.

ghost use Rattle.std.specs.Prelude.{◌≡◌, ◌++◌, IfOk, OnOk};
ghost use Rattle.while_answer.specs.Texts.{point_line, point_lines};

use itoa::Buffer;
use model::Memory;
use std::alloc::Global;

/// A line for each statement: its number, from 0, and the position of its first byte.
///
/// # Errors
///
/// `Memory` if an allocation fails.
pub fn points_text(alloc: Global, positions: &[u64]) -> Result<Vec<u8>, Memory>
    ensures { IfOk result (λ text. text.items ≡ point_lines 0 positions.now) }
{
    let mut text = Vec::new(alloc);
    push_points(&mut text, positions)?;
    Ok(text)
}

// The lines of all statements.
fn push_points(text: &mut Vec<u8>, positions: &[u64]) -> Result<(), Memory>
    ensures { OnOk result (text.new.items ≡ text.old.items ++ point_lines 0 positions.now) }
{
    for k in 0..positions.len() {
        push_point(text, k as u64, &positions[k])?;
    }
    Ok(())
}

// The line of the statement with this number.
fn push_point(text: &mut Vec<u8>, number: u64, position: &u64) -> Result<(), Memory>
    ensures { OnOk result (text.new.items ≡ text.old.items ++ point_line number position.now) }
{
    text.extend_from_slice(b"point ")?;
    text.extend_from_slice(Buffer::new().format(number).as_bytes())?;
    text.extend_from_slice(b" at ")?;
    text.extend_from_slice(Buffer::new().format(*position).as_bytes())?;
    text.extend_from_slice(b"\n")
}
