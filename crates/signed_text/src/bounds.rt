//! Writes bounds.

ghost use Rattle.std.specs.Prelude.{◌≡◌, ◌++◌, map, OnOk};
ghost use Rattle.text_core.specs.Names.{name_of};
ghost use Rattle.signed_bounds.specs.Bounds.{ProductOf};
ghost use Rattle.signed_bounds.specs.Views.{signed_of, signeds_of, parts_of};
ghost use Rattle.signed_text.specs.Texts.{signed_text, separated_text, separated_rest, factor_text};

use crate::polynomials::write_polynomial;
use itoa::Buffer;
use poly_terms::Memory;
use signed_bounds::Signed;
use text_core::Name;

/// Appends the text of a bound over start arguments with these names. The recursion is as deep as the bound.
///
/// # Errors
///
/// `Memory` where an allocation fails; the contents of `text` are then unspecified.
pub fn write_signed(text: &mut Vec<u8>, names: &[Name], bound: &Signed) -> Result<(), Memory>
    ensures { OnOk result
        (text.new.items ≡ text.old.items ++ signed_text (map name_of names.now) (signed_of bound.now)) }
{
    write_bound(text, names, bound)
}

// Appends a bound.
#[cycle(write)]
fn write_bound(text: &mut Vec<u8>, names: &[Name], bound: &Signed) -> Result<(), Memory>
    ensures { OnOk result
        (text.new.items ≡ text.old.items ++ signed_text (map name_of names.now) (signed_of bound.now)) }
{
    match bound {
        Signed::Const(n) => text.extend_from_slice(Buffer::new().format(*n).as_bytes()),
        Signed::Part(p) => {
            text.extend_from_slice(b"[")?;
            write_polynomial(text, names, &p.terms)?;
            text.extend_from_slice(b"]")
        }
        Signed::Sum(parts) => write_separated(text, names, b"0", b" + ", parts),
        Signed::Prod(parts) => write_product(text, names, parts),
        Signed::Max(parts) => {
            text.extend_from_slice(b"max(")?;
            write_separated(text, names, b"0", b", ", parts)?;
            text.extend_from_slice(b")")
        }
        Signed::Min(first, parts) => {
            text.extend_from_slice(b"min(")?;
            write_bound(text, names, first)?;
            write_each_after_separator(text, names, b", ", parts)?;
            text.extend_from_slice(b")")
        }
        Signed::Quotient(part, divisor) => {
            text.extend_from_slice(b"(")?;
            write_bound(text, names, part)?;
            text.extend_from_slice(b")/")?;
            text.extend_from_slice(Buffer::new().format(*divisor).as_bytes())
        }
        Signed::Root(part) => {
            text.extend_from_slice(b"root(")?;
            write_bound(text, names, part)?;
            text.extend_from_slice(b")")
        }
        Signed::Power(base, exponent) => {
            text.extend_from_slice(Buffer::new().format(*base).as_bytes())?;
            text.extend_from_slice(b"^(")?;
            write_bound(text, names, exponent)?;
            text.extend_from_slice(b")")
        }
    }
}

// Appends parts with a separator between each two, or `nothing` if there are none.
#[cycle(write)]
fn write_separated(
    text: &mut Vec<u8>,
    names: &[Name],
    nothing: &[u8],
    separator: &[u8],
    parts: &[Signed],
) -> Result<(), Memory>
    ensures { OnOk result (text.new.items ≡ text.old.items
        ++ separated_text (map name_of names.now) nothing.now separator.now (parts_of (signeds_of parts.now))) }
{
    let Some((first, others)) = parts.split_first() else {
        return text.extend_from_slice(nothing);
    };
    write_bound(text, names, first)?;
    for part in others {
        text.extend_from_slice(separator)?;
        write_bound(text, names, part)?;
    }
    Ok(())
}

// Appends parts, with the separator before each.
#[cycle(write)]
fn write_each_after_separator(
    text: &mut Vec<u8>,
    names: &[Name],
    separator: &[u8],
    parts: &[Signed],
) -> Result<(), Memory>
    ensures { OnOk result (text.new.items
        ≡ text.old.items ++ separated_rest (map name_of names.now) separator.now (parts_of (signeds_of parts.now))) }
{
    for part in parts {
        text.extend_from_slice(separator)?;
        write_bound(text, names, part)?;
    }
    Ok(())
}

// Appends a product of factors; one without factors is 1.
#[cycle(write)]
fn write_product(text: &mut Vec<u8>, names: &[Name], factors: &[Signed]) -> Result<(), Memory>
    ensures { OnOk result (text.new.items
        ≡ text.old.items ++ signed_text (map name_of names.now) (ProductOf (parts_of (signeds_of factors.now)))) }
{
    let Some((first, others)) = factors.split_first() else {
        return text.extend_from_slice(b"1");
    };
    write_factor(text, names, first)?;
    for factor in others {
        text.extend_from_slice(b"*")?;
        write_factor(text, names, factor)?;
    }
    Ok(())
}

// Appends a factor: a sum or a quotient is in brackets.
#[cycle(write)]
fn write_factor(text: &mut Vec<u8>, names: &[Name], factor: &Signed) -> Result<(), Memory>
    ensures { OnOk result (text.new.items
        ≡ text.old.items ++ factor_text (signed_of factor.now) (signed_text (map name_of names.now) (signed_of factor.now))) }
{
    match factor {
        Signed::Sum(_) | Signed::Quotient(_, _) => {
            text.extend_from_slice(b"(")?;
            write_bound(text, names, factor)?;
            text.extend_from_slice(b")")
        }
        Signed::Const(_)
        | Signed::Part(_)
        | Signed::Prod(_)
        | Signed::Max(_)
        | Signed::Min(_, _)
        | Signed::Root(_)
        | Signed::Power(_, _) => write_bound(text, names, factor),
    }
}
