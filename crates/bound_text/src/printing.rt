//! Prints a bound.

ghost use Rattle.std.specs.Prelude.{◌≡◌, ◌++◌, ◌∷◌, ◌+◌, ◌^◌, ◌<◌, ◌≤◌, length, map, not, IfOk, OnOk, IsTrue, IsFalse};
ghost use Rattle.std.specs.Prelude.{MatchOption};
ghost use Rattle.text_core.specs.Names.{name_of};
ghost use Rattle.bound_expr.specs.Views.{bound_of, bounds_of, parts_of};
ghost use Rattle.bound_expr.specs.Substitution.{ReadsBelow, AllReadBelow};
ghost use Rattle.bound_expr.specs.Tidy.{IsTidy};
ghost use Rattle.bound_text.specs.Pieces.{spelled};
ghost use Rattle.bound_text.specs.Writing as writing;
ghost use Rattle.bound_text.specs.Writing.{text_then, joined_then, factors_then, bracketed_then, ended_then};
ghost use Rattle.bound_text.specs.Writing.{times_then, goes_on, run_with, count_of};
ghost use Rattle.bound_text.specs.Texts.{IsText, text_of};
ghost use Rattle.bound_text.specs.Printing.{piece_of, separator_of, before_of, IsListed, IsListedRun, WritesAll};
ghost use Rattle.bound_text.specs.Printing.{WritesFactor};

use crate::kinds::{is_leaf, is_sum};
use crate::piece::Piece;
use bound_expr::{Bound, Memory};
use itoa::Buffer;
use std::alloc::Global;
use text_core::Name;

/// The separator of parts.
#[derive(Clone, Copy)]
pub enum Join {
    /// ` + `
    Plus,
    /// `, `
    Comma,
}

/// The part before the next factor of a product.
#[derive(Clone, Copy)]
pub enum Before {
    Nothing,
    /// This many times one variable, not written yet.
    Run(u32, u64),
    Other,
}

/// The text of a bound over variables with these names. The recursion is as deep as the bound.
///
/// # Errors
///
/// `Memory` where an allocation fails.
pub fn print(alloc: Global, names: &[Name], b: &Bound) -> Result<Vec<u8>, Memory>
    requires tidy { IsTidy (bound_of b.now) }
    requires listed { ReadsBelow (length names.now) (bound_of b.now) }
    ensures { IfOk result (λ text. IsText (map name_of names.now) text.items (bound_of b.now)) }
{
    let mut text = Vec::new(alloc);
    write(names, &mut text, b)?;
    Ok(text)
}

/// Appends the text of a bound, over variables with these names, to `text`. The recursion is as deep as the bound.
///
/// # Errors
///
/// `Memory` where an allocation fails; the contents of `text` are then unspecified.
pub fn write(names: &[Name], text: &mut Vec<u8>, b: &Bound) -> Result<(), Memory>
    requires { ReadsBelow (length names.now) (bound_of b.now) }
    ensures { OnOk result (text.new.items ≡ text.old.items ++ text_of (map name_of names.now) (bound_of b.now)) }
{
    write_bound(names, text, b)
}

// Appends one piece.
fn write_piece(names: &[Name], text: &mut Vec<u8>, piece: Piece) -> Result<(), Memory>
    requires { IsListed (length names.now) piece }
    ensures { OnOk result (text.new.items ≡ text.old.items ++ spelled (map name_of names.now) (piece_of piece)) }
{
    match piece {
        Piece::Variable(i) => text.extend_from_slice(&names[i as usize].bytes),
        Piece::Number(n) => text.extend_from_slice(Buffer::new().format(n).as_bytes()),
        Piece::Maximum => text.extend_from_slice(b"max("),
        Piece::Open => text.extend_from_slice(b"("),
        Piece::Close => text.extend_from_slice(b")"),
        Piece::Times => text.extend_from_slice(b"*"),
        Piece::Caret => text.extend_from_slice(b"^"),
        Piece::Plus => text.extend_from_slice(b"+"),
        Piece::Blank => text.extend_from_slice(b" "),
        Piece::Comma => text.extend_from_slice(b","),
        Piece::Wrong => Ok(()),
    }
}

// Appends ` + ` or `, `.
fn write_separator(names: &[Name], text: &mut Vec<u8>, join: Join) -> Result<(), Memory>
    ensures { OnOk result (WritesAll (map name_of names.now) text.old.items text.new.items
        (λ rest. separator_of join ++ rest)) }
{
    match join {
        Join::Plus => {
            write_piece(names, text, Piece::Blank)?;
            write_piece(names, text, Piece::Plus)?;
            write_piece(names, text, Piece::Blank)
        }
        Join::Comma => {
            write_piece(names, text, Piece::Comma)?;
            write_piece(names, text, Piece::Blank)
        }
    }
}

// Appends a bound without brackets around it.
#[cycle(write)]
fn write_bound(names: &[Name], text: &mut Vec<u8>, bound: &Bound) -> Result<(), Memory>
    requires { ReadsBelow (length names.now) (bound_of bound.now) }
    ensures { OnOk result (WritesAll (map name_of names.now) text.old.items text.new.items
        (text_then (bound_of bound.now))) }
{
    match bound {
        Bound::Const(c) => write_piece(names, text, Piece::Number(*c)),
        Bound::Var(i) => write_piece(names, text, Piece::Variable(*i)),
        Bound::Sum(parts) => write_joined(names, text, Join::Plus, parts),
        Bound::Prod(factors) => write_factors(names, text, factors),
        Bound::Max(parts) => {
            write_piece(names, text, Piece::Maximum)?;
            write_joined(names, text, Join::Comma, parts)?;
            write_piece(names, text, Piece::Close)
        }
        Bound::Power(base, exponent) => {
            write_piece(names, text, Piece::Number(u128::from(*base)))?;
            write_piece(names, text, Piece::Caret)?;
            write_bracketed(names, text, !is_leaf(exponent), exponent)
        }
    }
}

// Appends a bound, in brackets where that is wanted.
#[cycle(write)]
fn write_bracketed(
    names: &[Name],
    text: &mut Vec<u8>,
    bracketed: bool,
    bound: &Bound,
) -> Result<(), Memory>
    requires { ReadsBelow (length names.now) (bound_of bound.now) }
    ensures { OnOk result (WritesAll (map name_of names.now) text.old.items text.new.items
        (bracketed_then bracketed (text_then (bound_of bound.now)))) }
{
    if bracketed {
        write_piece(names, text, Piece::Open)?;
        write_bound(names, text, bound)?;
        write_piece(names, text, Piece::Close)
    } else {
        write_bound(names, text, bound)
    }
}

// Writes parts and their separators.
#[cycle(write)]
fn write_joined(
    names: &[Name],
    text: &mut Vec<u8>,
    join: Join,
    parts: &[Bound],
) -> Result<(), Memory>
    requires { AllReadBelow (length names.now) (parts_of (bounds_of parts.now)) }
    ensures { OnOk result (WritesAll (map name_of names.now) text.old.items text.new.items
        (joined_then (separator_of join) (parts_of (bounds_of parts.now)))) }
{
    let Some((first, others)) = parts.split_first() else {
        return Ok(());
    };
    write_bound(names, text, first)?;
    for part in others {
        write_separator(names, text, join)?;
        write_bound(names, text, part)?;
    }
    Ok(())
}

// Writes the factors of a product.
#[cycle(write)]
fn write_factors(names: &[Name], text: &mut Vec<u8>, factors: &[Bound]) -> Result<(), Memory>
    requires { AllReadBelow (length names.now) (parts_of (bounds_of factors.now)) }
    ensures { OnOk result (WritesAll (map name_of names.now) text.old.items text.new.items
        (factors_then writing.Nothing (parts_of (bounds_of factors.now)))) }
{
    let mut before = Before::Nothing;
    for factor in factors {
        before = write_factor(names, text, before, factor)?;
    }
    write_run(names, text, before)
}

// Writes one more factor. A variable that continues the run before is counted into it, and another variable begins a
// run.
#[cycle(write)]
fn write_factor(
    names: &[Name],
    text: &mut Vec<u8>,
    before: Before,
    factor: &Bound,
) -> Result<Before, Memory>
    requires listed { ReadsBelow (length names.now) (bound_of factor.now) }
    requires run { IsListedRun (length names.now) before }
    requires room { count_of (before_of before) < 2 ^ 63 }
    ensures text { IfOk result (λ behind. WritesFactor (map name_of names.now) text.old.items text.new.items
        (before_of before) (before_of behind) (bound_of factor.now)) }
    ensures run { IfOk result (λ behind. IsListedRun (length names.now) behind) }
    ensures count { IfOk result (λ behind. count_of (before_of behind) ≤ count_of (before_of before) + 1) }
{
    match factor {
        Bound::Var(i) => {
            if let Some(longer) = longer(before, *i) {
                return Ok(longer);
            }
            write_times(names, text, before)?;
            Ok(Before::Run(*i, 1))
        }
        _ => {
            write_times(names, text, before)?;
            write_bracketed(names, text, is_sum(factor), factor)?;
            Ok(Before::Other)
        }
    }
}

/// The run before, with one more of this variable, if it is a run of this variable.
pub(crate) fn longer(before: Before, variable: u32) -> Option<Before>
    requires { count_of (before_of before) < 2 ^ 63 }
    ensures { MatchOption result (IsFalse (goes_on (before_of before) variable))
        (λ run. IsTrue (goes_on (before_of before) variable) × (before_of run ≡ run_with (before_of before) variable)) }
{
    match before {
        Before::Run(i, n) if i == variable => Some(Before::Run(i, n + 1)),
        _ => None,
    }
}

// Writes the run before, if there is one.
fn write_run(names: &[Name], text: &mut Vec<u8>, before: Before) -> Result<(), Memory>
    requires { IsListedRun (length names.now) before }
    ensures { OnOk result (WritesAll (map name_of names.now) text.old.items text.new.items
        (ended_then (before_of before))) }
{
    if let Before::Run(i, n) = before {
        write_piece(names, text, Piece::Variable(i))?;
        if n > 1 {
            write_piece(names, text, Piece::Caret)?;
            write_piece(names, text, Piece::Number(u128::from(n)))?;
        }
    }
    Ok(())
}

// Writes what comes before a factor: the run, and `*`.
fn write_times(names: &[Name], text: &mut Vec<u8>, before: Before) -> Result<(), Memory>
    requires { IsListedRun (length names.now) before }
    ensures { OnOk result (WritesAll (map name_of names.now) text.old.items text.new.items
        (λ rest. ended_then (before_of before) (times_then (before_of before) rest))) }
{
    write_run(names, text, before)?;
    match before {
        Before::Nothing => Ok(()),
        _ => write_piece(names, text, Piece::Times),
    }
}
