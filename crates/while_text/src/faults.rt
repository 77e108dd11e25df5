//! The faults of tokens that are reported at their first byte, and of statements with too many rules.

ghost use Rattle.std.specs.Prelude.{◌≡◌, List, ℕ, Some};
ghost use Rattle.text_grammar.specs.text_core.Choices.{when as when_at};
ghost use Rattle.text_grammar.specs.Following.{first_of_two};
ghost use Rattle.text_grammar.specs.Marks.{fault_of, refusal_of};
ghost use Rattle.text_grammar.specs.Texts.{reader};
ghost use Rattle.text_grammar.specs.text_core.Reading.{first_of as first_at};
ghost use Rattle.while_text.specs.Faults as faults;
ghost use Rattle.while_text.specs.Reading.{while_text};
ghost use Rattle.while_text.specs.Views.{course_of, draft_of};

use crate::course::{Course, is_in_expression, negation_count};
use crate::draft::Draft;
use crate::kind::{Kind, WhileKind};
use crate::names::{bytes_of, is_among};
use crate::phase::Phase;
use crate::piece::{Piece, Sort};
use crate::sorts::{is_first_word, is_in_sums, is_large, is_name, opens_block};
use model::{ATOM_LIMIT, NAME_LIMIT, PLACE_LIMIT, RULE_LIMIT, TOKEN_LIMIT};
use text_grammar::Fault;

/// The greatest number of open blocks.
pub const DEPTH_LIMIT: usize = 64;

// The kind, if the test holds.
fn when(test: bool, kind: Kind) -> Option<Kind>
    ensures { result ≡ when_at test kind }
{
    if test { Some(kind) } else { None }
}

// The first of two kinds, or the other one if there is no first.
fn or_kind(first: Option<Kind>, other: Option<Kind>) -> Option<Kind>
    ensures { result ≡ faults.or_kind first other }
{
    match first {
        Some(kind) => Some(kind),
        None => other,
    }
}

// Whether the part of the text that is being read is the inputs.
fn is_inputs(phase: Phase) -> bool
    ensures { result ≡ faults.is_inputs phase }
{
    matches!(phase, Phase::Inputs)
}

// Whether an atom begins with the next token.
fn begins_atom(phase: Phase, tokens: u64) -> bool
    ensures { result ≡ faults.begins_atom phase tokens }
{
    match phase {
        Phase::Left => tokens == 0,
        _ => false,
    }
}

// Whether a token begins a statement.
fn begins_statement(phase: Phase, sort: Sort) -> bool
    ensures { result ≡ faults.begins_statement phase sort }
{
    match phase {
        Phase::Statements => is_first_word(sort),
        _ => false,
    }
}

// The fault of a name: it is no input, is a repeated input, or is too long.
fn fault_of_name(text: &[u8], piece: Piece, course: &Course, draft: &Draft) -> Option<Kind>
    ensures { result ≡ faults.fault_of_name text.now piece (course_of course.now) (draft_of draft.now) }
{
    if !is_name(piece.sort) {
        return None;
    }
    let bytes = bytes_of(text, piece);
    let among = is_among(&draft.names, bytes);
    let inputs = is_inputs(course.phase);
    let long = when(bytes.len() > NAME_LIMIT, Kind::Limit(WhileKind::Name));
    let repeated = when(inputs && among, Kind::RepeatedName);
    let unknown = when(!inputs && !among, Kind::UnknownName);
    or_kind(unknown, or_kind(repeated, long))
}

// The fault of a token too many in an expression, or of an atom too many.
fn fault_of_token(piece: Piece, course: &Course, draft: &Draft) -> Option<Kind>
    ensures { result ≡ faults.fault_of_token piece (course_of course.now) (draft_of draft.now) }
{
    let in_sum = is_in_expression(course.phase) && is_in_sums(piece.sort);
    let many_tokens = in_sum && course.tokens >= TOKEN_LIMIT as u64;
    let many_atoms = begins_atom(course.phase, course.tokens) && draft.test.len() >= ATOM_LIMIT;
    or_kind(
        when(many_tokens, Kind::Limit(WhileKind::Tokens)),
        when(many_atoms, Kind::Limit(WhileKind::Atoms)),
    )
}

// The fault of an input, an open block or a statement too many.
fn fault_of_count(piece: Piece, course: &Course, draft: &Draft) -> Option<Kind>
    ensures { result ≡ faults.fault_of_count piece (course_of course.now) (draft_of draft.now) }
{
    let many_inputs = is_inputs(course.phase)
        && is_name(piece.sort)
        && draft.names.len() >= PLACE_LIMIT;
    let many_blocks = opens_block(piece.sort) && draft.blocks.len() >= DEPTH_LIMIT;
    let many_rules = begins_statement(course.phase, piece.sort)
        && course.rules >= RULE_LIMIT as u64;
    or_kind(
        when(many_inputs, Kind::Limit(WhileKind::Variables)),
        or_kind(
            when(many_blocks, Kind::Limit(WhileKind::Depth)),
            when(many_rules, Kind::Limit(WhileKind::Rules)),
        ),
    )
}

/// The fault that is reported at the first byte of a token; of several kinds it is the one with the least number.
pub fn fault_of_first(text: &[u8], piece: Piece, course: &Course, draft: &Draft) -> Option<Kind>
    ensures { result ≡ faults.fault_of_first text.now piece (course_of course.now) (draft_of draft.now) }
{
    let large = when(is_large(piece.sort), Kind::NumberTooLarge);
    let named = fault_of_name(text, piece, course, draft);
    let counted = or_kind(
        fault_of_token(piece, course, draft),
        fault_of_count(piece, course, draft),
    );
    or_kind(large, or_kind(named, counted))
}

// Whether an atom ends with a token.
fn ends_atom(piece: Piece, course: &Course) -> bool
    ensures { result ≡ faults.ends_atom piece (course_of course.now) }
{
    match course.phase {
        Phase::Right => course.is_last(piece),
        _ => false,
    }
}

/// The fault that is reported at the first byte of the statement: with the negations of the atom that ends with the
/// token, it has too many rules.
pub fn fault_of_rules(piece: Piece, course: &Course) -> Option<Kind>
    ensures { result ≡ faults.fault_of_rules piece (course_of course.now) }
{
    let rules = course.rules.saturating_add(negation_count(course.relation));
    let passes = ends_atom(piece, course) && rules > RULE_LIMIT as u64;
    when(passes, Kind::Limit(WhileKind::Rules))
}

/// The number of a kind: of two kinds at one position, the one with the lower number is reported.
pub fn number_of(kind: Kind) -> u32
    ensures { result ≡ faults.number_of kind }
{
    match kind {
        Kind::NotAscii => 1,
        Kind::Syntax => 2,
        Kind::NumberTooLarge => 3,
        Kind::UnknownName => 4,
        Kind::RepeatedName => 5,
        Kind::Limit(WhileKind::Name) => 6,
        Kind::Limit(WhileKind::Tokens) => 7,
        Kind::Limit(WhileKind::Terms) => 8,
        Kind::Limit(WhileKind::Degree) => 9,
        Kind::Limit(WhileKind::Atoms) => 10,
        Kind::Limit(WhileKind::Variables) => 11,
        Kind::Limit(WhileKind::Depth) => 12,
        Kind::Limit(WhileKind::Rules) => 13,
    }
}

/// A fault of a kind at a position, if there is one.
pub fn fault_at(kind: Option<Kind>, at: u64) -> Option<Fault<Kind>>
    ensures { fault_of result ≡ faults.fault_at kind at }
{
    match kind {
        Some(kind) => Some(Fault { kind, at }),
        None => None,
    }
}

// The first of two faults, by position and then by kind.
fn first_of(best: Fault<Kind>, other: Fault<Kind>) -> Fault<Kind>
    ensures { (text : List ℕ) → refusal_of result
        ≡ first_at (reader (while_text text)) (Some (refusal_of best)) (refusal_of other) }
{
    let nearer = other.at < best.at;
    let lesser = other.at == best.at && number_of(other.kind) < number_of(best.kind);
    if nearer || lesser { other } else { best }
}

/// The first of two optional faults; none if both are absent.
pub fn first_fault(best: Option<Fault<Kind>>, other: Option<Fault<Kind>>) -> Option<Fault<Kind>>
    ensures { (text : List ℕ) → fault_of result ≡ first_of_two (while_text text) (fault_of best) (fault_of other) }
{
    match (best, other) {
        (Some(best), Some(other)) => Some(first_of(best, other)),
        (Some(best), None) => Some(best),
        (None, other) => other,
    }
}
