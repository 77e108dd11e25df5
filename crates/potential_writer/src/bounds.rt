//! Prints bounds.

ghost use Rattle.std.specs.Prelude.{◌≡◌, ◌++◌, OnOk};
ghost use Rattle.signed_bounds.specs.Views.{parts_of, signed_of, signeds_of};
ghost use Rattle.potential_writer.specs.Bounds.{bound_text, more_parts_text, parts_text};

use crate::numbers::push_long;
use crate::polynomials::push_poly;
use itoa::Buffer;
use model::Memory;
use signed_bounds::Signed;

/// A bound. The call goes as deep as it does.
#[cycle(bounds)]
pub(crate) fn push_bound(text: &mut Vec<u8>, bound: &Signed) -> Result<(), Memory>
    ensures { OnOk result (text.new.items ≡ text.old.items ++ bound_text (signed_of bound.now)) }
{
    match bound {
        Signed::Const(c) => text.extend_from_slice(Buffer::new().format(*c).as_bytes()),
        Signed::Part(p) => {
            text.extend_from_slice(b"part ")?;
            push_poly(text, p)
        }
        Signed::Sum(parts) => {
            text.extend_from_slice(b"sum (")?;
            push_parts(text, parts)?;
            text.extend_from_slice(b")")
        }
        Signed::Prod(parts) => {
            text.extend_from_slice(b"product (")?;
            push_parts(text, parts)?;
            text.extend_from_slice(b")")
        }
        Signed::Max(parts) => {
            text.extend_from_slice(b"maximum (")?;
            push_parts(text, parts)?;
            text.extend_from_slice(b")")
        }
        Signed::Min(first, parts) => {
            text.extend_from_slice(b"minimum (")?;
            push_bound(text, first)?;
            push_more_parts(text, parts)?;
            text.extend_from_slice(b")")
        }
        Signed::Quotient(part, den) => {
            text.extend_from_slice(b"quotient (")?;
            push_bound(text, part)?;
            text.extend_from_slice(b") by ")?;
            text.extend_from_slice(Buffer::new().format(*den).as_bytes())
        }
        Signed::Root(part) => {
            text.extend_from_slice(b"root (")?;
            push_bound(text, part)?;
            text.extend_from_slice(b")")
        }
        Signed::Power(base, exponent) => {
            text.extend_from_slice(b"power ")?;
            push_long(text, *base)?;
            text.extend_from_slice(b" to (")?;
            push_bound(text, exponent)?;
            text.extend_from_slice(b")")
        }
    }
}

// Parts, with a semicolon and a blank between them.
#[cycle(bounds)]
fn push_parts(text: &mut Vec<u8>, parts: &[Signed]) -> Result<(), Memory>
    ensures { OnOk result (text.new.items ≡ text.old.items ++ parts_text (parts_of (signeds_of parts.now))) }
{
    let Some((first, others)) = parts.split_first() else {
        return Ok(());
    };
    push_bound(text, first)?;
    for part in others {
        text.extend_from_slice(b"; ")?;
        push_bound(text, part)?;
    }
    Ok(())
}

// A semicolon and a blank before each part.
#[cycle(bounds)]
fn push_more_parts(text: &mut Vec<u8>, parts: &[Signed]) -> Result<(), Memory>
    ensures { OnOk result (text.new.items ≡ text.old.items ++ more_parts_text (parts_of (signeds_of parts.now))) }
{
    for part in parts {
        text.extend_from_slice(b"; ")?;
        push_bound(text, part)?;
    }
    Ok(())
}
