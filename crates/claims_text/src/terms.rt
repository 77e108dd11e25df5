//! Expressions over the places of a symbol.

ghost use Rattle.std.specs.Prelude.{◌≡◌, ◌+◌, ◌++◌, codes, decimal, map, IfOk, OnOk};
ghost use Rattle.poly_terms.specs.Views.{term_of};
ghost use Rattle.text_core.specs.Names.{name_of};
ghost use Rattle.claims_text.specs.Terms.{term_text, place_names as names_of_places};

use itoa::Buffer;
use poly_terms::{Expr, Memory};
use signed_text::write_variable;
use std::alloc::Global;
use text_core::Name;

/// Appends an expression over variables with these names. Each part that isn't a number or a variable is in brackets.
#[cycle(terms)]
pub(crate) fn push_term(text: &mut Vec<u8>, names: &[Name], e: &Expr) -> Result<(), Memory>
    ensures { OnOk result (text.new.items ≡ text.old.items ++ term_text (map name_of names.now) (term_of e.now)) }
{
    match e {
        Expr::Num(z) => text.extend_from_slice(Buffer::new().format(*z).as_bytes()),
        Expr::Var(i) => write_variable(text, names, *i),
        Expr::Neg(e) => push_between(text, names, b"(-", e, b")"),
        Expr::Add(d, e) => {
            push_between(text, names, b"(", d, b" + ")?;
            push_term(text, names, e)?;
            text.extend_from_slice(b")")
        }
        Expr::Sub(d, e) => {
            push_between(text, names, b"(", d, b" - ")?;
            push_term(text, names, e)?;
            text.extend_from_slice(b")")
        }
        Expr::Mul(d, e) => {
            push_between(text, names, b"(", d, b"*")?;
            push_term(text, names, e)?;
            text.extend_from_slice(b")")
        }
        Expr::Pow(e, exponent) => {
            push_between(text, names, b"(", e, b"^")?;
            text.extend_from_slice(Buffer::new().format(*exponent).as_bytes())?;
            text.extend_from_slice(b")")
        }
    }
}

// Appends an expression between two texts.
#[cycle(terms)]
fn push_between(
    text: &mut Vec<u8>,
    names: &[Name],
    front: &[u8],
    e: &Expr,
    back: &[u8],
) -> Result<(), Memory>
    ensures { OnOk result (text.new.items
        ≡ text.old.items ++ (front.now ++ (term_text (map name_of names.now) (term_of e.now) ++ back.now))) }
{
    text.extend_from_slice(front)?;
    push_term(text, names, e)?;
    text.extend_from_slice(back)
}

/// The names of as many places as a symbol may have: `x1`, `x2` and so on.
pub(crate) fn place_names(alloc: Global) -> Result<Vec<Name>, Memory>
    ensures { IfOk result (λ names. map name_of names.items ≡ names_of_places) }
{
    let mut names = Vec::new(alloc);
    for place in 0..32 {
        names.push(place_name(alloc, place)?)?;
    }
    Ok(names)
}

// The name of a place, by its number from 1 on.
fn place_name(alloc: Global, place: u32) -> Result<Name, Memory>
    ensures { IfOk result (λ name. name_of name ≡ codes "x" ++ decimal (place + 1)) }
{
    let mut bytes = Vec::from_slice(alloc, b"x")?;
    bytes.extend_from_slice(Buffer::new().format(u64::from(place) + 1).as_bytes())?;
    Ok(Name { bytes })
}
