//! Reads a bound from its text.

ghost use Rattle.std.specs.Prelude.{length, map};
ghost use Rattle.text_core.specs.model.Bounds as plain;
ghost use Rattle.text_core.specs.Names.{name_of};
ghost use Rattle.text_core.specs.Names.{AreNames};
ghost use Rattle.text_core.specs.Reading.{answer};
ghost use Rattle.bound_text.specs.Faults.{Answers, GivesBack, StatesAreRead as FrontsRead, TextsHaveNoFault};
ghost use Rattle.bound_text.specs.Lexing.{tokens};
ghost use Rattle.bound_text.specs.Reading.{bounds};
ghost use Rattle.bound_text.specs.Texts.{IsTextWithin, OneBound};
ghost use Rattle.bound_text.specs.Views.{Says};

use crate::error::BoundTextError;
use crate::lexer::next;
use crate::state::Reader;
use bound_expr::Bound;
use std::alloc::Global;
use text_core::{Name, NameIndex, begins_with};

/// Reads the bound that a text represents, over variables with these names.
///
/// There is one spelling. The parts of a sum are joined by ` + `, those of a maximum are written `max(a, b)`, the
/// factors of a product are joined by `*`, and a longest run of n equal neighbouring variables, n at least 2, is
/// written `A^n`. A power is its base, `^` and the exponent. A sum as a factor is in brackets, and so is an exponent
/// that is no constant and no variable. Constants are decimal without leading zeros.
///
/// # Errors
///
/// The refusal at the least position is reported, and at one position the one that comes first here. `Syntax` is at the
/// first token that can't follow, at the number of a base under 2, or at the text's length if it ends too early. A name
/// directly before a bracket is refused at its first byte, unless it is `max`. `NumberTooLarge` is at a number over
/// 2^127-1, or a base over 2^64-1; `UnknownName` at a name that isn't listed; `TooDeep` and `TooLarge` at the token
/// with which the tree so far has more than 200 levels, or more than 4,096 nodes. A sum counts as a node from its first
/// ` + ` on, and a product from its first `*` on. `Memory` comes where memory ran out, or where a listed name has a
/// position over 2^32-1.
pub fn read(alloc: Global, names: &[Name], bytes: &[u8]) -> Result<Bound, BoundTextError>
    requires { AreNames (map name_of names.now) }
    ensures answer { Answers (map name_of names.now) bytes.now result }
    ensures complete { (b : plain.Bound) → IsTextWithin (map name_of names.now) bytes.now b → GivesBack b result }
{
    judge(alloc, names, bytes)
}

/// A text represents at most one bound, of those that a `Bound` can hold, however deep and large.
pub fn one_bound()
    ensures { OneBound }
{}

/// The text of a bound within the limits has no fault. So a text has either a bound within the limits or a first fault.
pub fn texts_have_no_fault()
    ensures { TextsHaveNoFault }
{}

/// A state of the reader describes exactly the pieces read so far: pieces lead to it if and only if they are its text,
/// and a base can follow if and only if an item begins.
pub fn states_are_read()
    ensures { FrontsRead }
{}

// The answer of reading a text.
fn judge(alloc: Global, names: &[Name], bytes: &[u8]) -> Result<Bound, BoundTextError>
    requires { AreNames (map name_of names.now) }
    ensures { Says (answer (bounds (length (map name_of names.now))) (length bytes.now)
        (tokens (map name_of names.now) bytes.now)) result }
{
    let listed = NameIndex::new(alloc, names)?;
    let mut reader = Reader::new(alloc);
    let mut rest = bytes;
    while let Some((first, others)) = rest.split_first() {
        let at = (bytes.len() - rest.len()) as u64;
        let lexeme = next(&listed, rest, *first, others)?;
        let (_, behind) = rest.split_at(lexeme.len);
        let caret = begins_with(behind, b'^');
        if let Err(fault) = reader.take(alloc, names.len(), caret, lexeme.piece) {
            return Err(fault.at(at));
        }
        rest = behind;
    }
    match reader.finish() {
        Ok(bound) => Ok(bound),
        Err(fault) => Err(fault.at(bytes.len() as u64)),
    }
}
