//! The faults of the pieces of lines.

ghost use Rattle.std.specs.Prelude.{◌≡◌, ◌-◌, ◌^◌};
ghost use Rattle.text_grammar.specs.text_core.Choices.{when as when_at};
ghost use Rattle.text_grammar.specs.Marks.{fault_of};
ghost use Rattle.potential_text.specs.Faults as faults;
ghost use Rattle.potential_text.specs.SymbolNames.{names_in};
ghost use Rattle.potential_text.specs.Views.{draft_of};

use crate::action::{Field, Role};
use crate::draft::{Draft, number_in};
use crate::kind::{LineKind, Part};
use crate::names::SymbolNames;
use crate::numbers::{Numbers, is_node};
use crate::piece::{Piece, Sort, Word};
use lexing_laws::piece_bytes;
use linear_forms::CERTIFICATE_LIMIT;
use signed_bounds::{CONSTANT_LIMIT, DEPTH_LIMIT, NODE_LIMIT};
use text_grammar::Fault;

/// A text has at most this many lines.
pub const LINE_LIMIT: usize = 100_000;

// The maximum number of a rule, a place, a fact, a row or a variable.
const REFERENCE_LIMIT: u128 = 0xffff_ffff;

// The maximum base.
const BASE_LIMIT: u128 = 0xffff_ffff_ffff_ffff;

// A kind, where a test passes.
fn when(test: bool, kind: LineKind) -> Option<LineKind>
    ensures { result ≡ when_at test kind }
{
    if test { Some(kind) } else { None }
}

// The first of two faults, where there are both.
fn or_else(first: Option<LineKind>, other: Option<LineKind>) -> Option<LineKind>
    ensures { result ≡ faults.or_else first other }
{
    match first {
        Some(kind) => Some(kind),
        None => other,
    }
}

// The maximum number of a field.
fn limit_of(field: Field) -> u128
    ensures { result ≡ faults.limit_of field }
{
    match field {
        Field::Size | Field::Den | Field::Amount => u128::from(CERTIFICATE_LIMIT),
        Field::Base => BASE_LIMIT,
        Field::Divisor => CONSTANT_LIMIT,
        _ => REFERENCE_LIMIT,
    }
}

// Whether a field is the number of a row or of a variable.
fn is_index(field: Field) -> bool
    ensures { result ≡ faults.is_index field }
{
    match field {
        Field::Row | Field::Other | Field::Variable => true,
        _ => false,
    }
}

// The fault of a number: it is over a limit.
fn fault_over(limit: u128, number: u128) -> Option<LineKind>
    ensures { result ≡ faults.fault_over limit number }
{
    when(limit < number, LineKind::NumberTooLarge)
}

// The fault of the number of a row or of a variable: it is over the limit, or 0.
fn fault_of_index(limit: u128, number: u128) -> Option<LineKind>
    ensures { result ≡ faults.fault_of_index limit number }
{
    or_else(
        fault_over(limit, number),
        when(number == 0, LineKind::BadReference),
    )
}

// The fault of a number of a field.
fn fault_of_field(field: Field, number: u128) -> Option<LineKind>
    ensures { result ≡ faults.fault_of_field field number }
{
    if is_index(field) {
        fault_of_index(limit_of(field), number)
    } else {
        fault_over(limit_of(field), number)
    }
}

// Whether a word begins the lines of a text.
fn begins_line(part: Part, sort: Sort) -> bool
    ensures { result ≡ faults.begins_line part sort }
{
    match (part, sort) {
        (Part::Lemmas, Sort::Name(Word::Signed)) => true,
        (Part::Claims, Sort::Name(Word::Claim)) => true,
        _ => false,
    }
}

// The number of lines that were read.
fn lines_in(part: Part, draft: &Draft) -> usize
    ensures { result ≡ faults.lines_in part (draft_of draft.now) }
{
    match part {
        Part::Lemmas => draft.lemmas.len(),
        Part::Claims => draft.claims.len(),
    }
}

// The fault of the word of a line: the text has no such lines, or it is one line too many.
fn fault_of_line(part: Part, sort: Sort, draft: &Draft) -> Option<LineKind>
    ensures { result ≡ faults.fault_of_line part sort (draft_of draft.now) }
{
    or_else(
        when(!begins_line(part, sort), LineKind::Syntax),
        when(LINE_LIMIT <= lines_in(part, draft), LineKind::Limit),
    )
}

// The fault of the name of a symbol: none has it.
fn fault_of_symbol(names: &SymbolNames<'_>, name: &[u8]) -> Option<LineKind>
    ensures { result ≡ faults.fault_of_symbol (names_in names.now) name.now }
{
    when(!names.has(name), LineKind::BadReference)
}

// The fault of a part of a bound: it is at level 201.
fn fault_of_level(draft: &Draft) -> Option<LineKind>
    ensures { result ≡ faults.fault_of_level (draft_of draft.now) }
{
    when(
        DEPTH_LIMIT as usize <= draft.bound.opened.len(),
        LineKind::TooDeep,
    )
}

// The fault of a node of a bound: there are 4,096 before it.
fn fault_of_node(role: Role, numbers: Numbers) -> Option<LineKind>
    ensures { result ≡ faults.fault_of_node role numbers }
{
    when(
        (numbers.bounding && is_node(role)) && NODE_LIMIT <= numbers.nodes,
        LineKind::Limit,
    )
}

// The fault of a piece in its role, apart from the number of nodes.
fn fault_of_role(
    draft: &Draft,
    part: Part,
    names: &SymbolNames<'_>,
    text: &[u8],
    piece: Piece,
) -> Option<LineKind>
    ensures { result ≡ faults.fault_in (draft_of draft.now).role part (names_in names.now) text.now piece
        (draft_of draft.now) }
{
    match draft.role {
        Role::Plain => None,
        Role::LineWord => fault_of_line(part, piece.sort, draft),
        Role::Symbol => fault_of_symbol(names, piece_bytes(text, piece.at, piece.len)),
        Role::Number(field) => fault_of_field(field, number_in(piece.sort)),
        Role::Factor => fault_of_index(REFERENCE_LIMIT, number_in(piece.sort)),
        Role::Listed => fault_over(REFERENCE_LIMIT, number_in(piece.sort)),
        Role::Constant => or_else(
            fault_over(CONSTANT_LIMIT, number_in(piece.sort)),
            fault_of_level(draft),
        ),
        Role::BoundWord => fault_of_level(draft),
    }
}

/// The fault of a piece in its role.
pub fn fault_of_piece(
    draft: &Draft,
    part: Part,
    names: &SymbolNames<'_>,
    text: &[u8],
    piece: Piece,
) -> Option<LineKind>
    ensures { result ≡ faults.fault_of_piece part (names_in names.now) text.now piece (draft_of draft.now) }
{
    or_else(
        fault_of_role(draft, part, names, text, piece),
        fault_of_node(draft.role, draft.numbers),
    )
}

/// The fault of a kind at a position, if there is one.
pub fn fault_at(kind: Option<LineKind>, at: u64) -> Option<Fault<LineKind>>
    ensures { fault_of result ≡ faults.kind_at kind at }
{
    match kind {
        Some(kind) => Some(Fault { kind, at }),
        None => None,
    }
}

/// The number of a kind: of two kinds at one position the one with the lesser number is reported.
pub fn number_of(kind: LineKind) -> u32
    ensures { result ≡ faults.number_of kind }
{
    match kind {
        LineKind::Syntax => 1,
        LineKind::NumberTooLarge => 2,
        LineKind::TooDeep => 3,
        LineKind::BadReference => 4,
        LineKind::Limit => 5,
    }
}
