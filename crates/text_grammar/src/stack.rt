//! The stack of expected symbols: the next one comes last.

ghost use Rattle.std.specs.Prelude.{◌≡◌, ◌≤◌, [], IfOk, OnOk};
ghost use Rattle.text_core.specs.Readers.{onto};
ghost use Rattle.text_grammar.specs.Leads.{behind, lead};
ghost use Rattle.text_grammar.specs.Tabled.{IsSound, Remains, row_in};
ghost use Rattle.text_grammar.specs.Views.{met};

use crate::entry::Entry;
use crate::symbol::Symbol;
use crate::tables::Tables;
use std::alloc::AllocError;

/// The effect of a class of pieces on a stack of expected symbols.
#[derive(Clone, Copy, Debug, PartialEq, Eq)]
pub enum Meeting {
    /// A piece of the class is matched, and the stack has the symbols expected next.
    Matched,
    /// The expected symbols derive only marks, and none is left.
    Passed,
    /// No piece of the class can follow. The contents of the stack are then unspecified.
    Refused,
}

/// Matches the expected symbols with a class of pieces, by the table of a grammar, which keeps the entries it has
/// computed: marks are collected until a piece of the class is matched.
///
/// # Errors
///
/// `AllocError` if an allocation fails.
pub fn meet(
    expected: &mut Vec<Symbol>,
    marks: &mut Vec<u32>,
    tables: &mut Tables<'_>,
    class: u32,
) -> Result<Meeting, AllocError>
    requires sound { IsSound tables.old }
    requires class { class ≤ tables.old.end }
    ensures remains { OnOk result (Remains tables.old tables.new) }
    ensures meets { IfOk result (λ m. met m marks.new.items expected.new.items
        ≡ behind marks.old.items (lead class (row_in tables.old class) (onto expected.old.items []))) }
{
    while let Some(symbol) = expected.pop() {
        match symbol {
            Symbol::Piece(other) => {
                return Ok(if other == class {
                    Meeting::Matched
                } else {
                    Meeting::Refused
                });
            }
            Symbol::Mark(mark) => marks.push(mark)?,
            Symbol::Made(number) => {
                tables.keep(class, number)?;
                match tables.row(class).get(number as usize) {
                    None | Some(Entry::Stuck) => return Ok(Meeting::Refused),
                    Some(Entry::Passes { marks: more }) => marks.extend_from_slice(more)?,
                    Some(Entry::Matches { marks: more, rest }) => {
                        marks.extend_from_slice(more)?;
                        expected.extend_from_slice(rest)?;
                        return Ok(Meeting::Matched);
                    }
                }
            }
        }
    }
    Ok(Meeting::Passed)
}
