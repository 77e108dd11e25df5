//! The parser of a grammar. It pulls tokens one by one and stores none.

ghost use Rattle.std.specs.Prelude.{◌≡◌, [], ◌<◌, ◌≤◌, List, IfOk, IfSome, OnOk, Some, None, MatchOption};
ghost use Rattle.text_core.specs.Readers.{onto};
ghost use Rattle.text_core.specs.Tokens.{AreInOrder};
ghost use Rattle.text_core.specs.Reading.{answer, ended as answered, first_of as first_at};
ghost use Rattle.text_grammar.specs.Grammars.{Event};
ghost use Rattle.text_grammar.specs.Texts.{IsLawful, did as did_marks, lead_at, reader};
ghost use Rattle.text_grammar.specs.Marks.{token_of, refusal_of, fault_of};
ghost use Rattle.text_grammar.specs.Tabled.{IsTableOf};
ghost use Rattle.text_grammar.specs.Following.{Follows, Says, first_of_two as first_at_two};

use crate::stack::{Meeting, meet};
use crate::symbol::Symbol;
use crate::tables::Tables;
use crate::text::{Text, Tokens};
use crate::token::{Fault, Refusal, Token};
use std::alloc::{AllocError, Global};

/// The effect of a token.
#[derive(Clone, Copy, Debug, PartialEq, Eq)]
pub enum Advance<K> {
    /// The token was accepted; its first fault, if it has any.
    Accepted(Option<Fault<K>>),
    /// The token can't follow.
    Rejected,
}

// The one of two refusals that comes first.
fn first_of<X: Text>(text: &X, best: Fault<X::Kind>, other: Fault<X::Kind>) -> Fault<X::Kind>
    ensures { refusal_of result ≡ first_at (reader (X.text_of text.now)) (Some (refusal_of best)) (refusal_of other) }
{
    let nearer = other.at < best.at;
    let lesser = other.at == best.at && text.number(other.kind) < text.number(best.kind);
    if nearer || lesser { other } else { best }
}

// The one of two optional refusals that comes first.
fn first_of_two<X: Text>(
    text: &X,
    best: Option<Fault<X::Kind>>,
    other: Option<Fault<X::Kind>>,
) -> Option<Fault<X::Kind>>
    ensures { fault_of result ≡ first_at_two (X.text_of text.now) (fault_of best) (fault_of other) }
{
    match (best, other) {
        (Some(best), Some(other)) => Some(first_of(text, best, other)),
        (Some(best), None) => Some(best),
        (None, other) => other,
    }
}

// The refusal where a text breaks off, or the refusal so far if that comes first.
fn stop_kind<X: Text>(
    text: &X,
    best: Option<Fault<X::Kind>>,
    piece: Option<X::Piece>,
    at: u64,
) -> Fault<X::Kind>
    ensures { refusal_of result ≡ first_at (reader (X.text_of text.now)) (fault_of best)
        (record { kind = (X.text_of text.now).stop_kind piece; at = at }) }
{
    let broken = Fault {
        kind: text.stop_kind(piece),
        at,
    };
    match best {
        Some(best) => first_of(text, best, broken),
        None => broken,
    }
}

// The refusal so far, if every fault that can still be shown comes after it; else none.
fn settled<X: Text>(text: &X, best: Option<Fault<X::Kind>>, at: u64) -> Option<Fault<X::Kind>>
    ensures { MatchOption result (IfSome (fault_of best) (λ y. (es : List (Event X.Piece)) → X.Knows text.now es
        → (X.text_of text.now).floor es at ≤ y.at)) (λ y. (fault_of best ≡ Some (refusal_of y))
        × ((es : List (Event X.Piece)) → X.Knows text.now es → y.at < (X.text_of text.now).floor es at)) }
{
    match best {
        Some(fault) if fault.at < text.floor(at) => Some(fault),
        _ => None,
    }
}

// Does the marks in order.
fn do_all<X: Text>(text: &mut X, marks: &[u32]) -> Result<(), AllocError>
    ensures same { X.text_of text.new ≡ X.text_of text.old }
    ensures known { OnOk result ((es : List (Event X.Piece)) → X.Knows text.old es
        → X.Knows text.new (did_marks es marks.now)) }
{
    for mark in marks {
        text.did(*mark)?;
    }
    Ok(())
}

// Reads one more token.
fn follow<X: Text>(
    text: &mut X,
    expected: &mut Vec<Symbol>,
    marks: &mut Vec<u32>,
    tables: &mut Tables<'_>,
    token: Token<X::Piece>,
) -> Result<Advance<X::Kind>, AllocError>
    requires lawful { IsLawful (X.text_of text.old) }
    requires tabled { IsTableOf tables.old (X.text_of text.old).grammar }
    ensures same { X.text_of text.new ≡ X.text_of text.old }
    ensures tabled { OnOk result (IsTableOf tables.new (X.text_of text.old).grammar) }
    ensures follows { IfOk result (λ f. (es : List (Event X.Piece)) → X.Knows text.old es
        → Follows (X.text_of text.old) (X.Knows text.new) es (token_of token)
        (lead_at (X.text_of text.old) (record { events = es; expected = onto expected.old.items [] }) token.piece)
        (onto expected.new.items []) f) }
{
    let class = text.class(token.piece);
    marks.clear();
    match meet(expected, marks, tables, class)? {
        Meeting::Matched => {
            do_all(text, marks)?;
            Ok(Advance::Accepted(text.take(token)?))
        }
        _ => Ok(Advance::Rejected),
    }
}

/// Parses a text of this many bytes from its tokens, one after the other, by the table of its grammar, whose entries
/// are computed when they are first used.
///
/// # Errors
///
/// The first refusal of the text, as defined by its reader, and `Memory` if an allocation fails. Reading stops as soon
/// as no later fault can precede the refusal so far.
pub fn read<X: Text + Drop, L: Tokens<Piece = X::Piece> + Drop>(
    alloc: Global,
    tables: Tables<'_>,
    text: X,
    tokens: L,
    len: u64,
) -> Result<X::Made, Refusal<X::Kind>>
    requires lawful { IsLawful (X.text_of text) }
    requires tabled { IsTableOf tables (X.text_of text).grammar }
    requires begins { X.Knows text [] }
    requires ordered { AreInOrder 0 (L.left tokens) len }
    ensures { Says X.Makes (answer (reader (X.text_of text)) len (L.left tokens)) result }
{
    let mut tables = tables;
    let mut text = text;
    let mut tokens = tokens;
    let mut expected = Vec::new(alloc);
    expected.push(Symbol::Made(0))?;
    let mut marks = Vec::new(alloc);
    let mut best = None;
    while let Some(token) = tokens.pull() {
        if let Some(fault) = settled(&text, best, token.at) {
            return Err(Refusal::Refuses(fault));
        }
        match follow(&mut text, &mut expected, &mut marks, &mut tables, token)? {
            Advance::Accepted(shown) => best = first_of_two(&text, best, shown),
            Advance::Rejected => {
                return Err(Refusal::Refuses(stop_kind(&text, best, Some(token.piece), token.at)));
            }
        }
    }
    ended(text, tables, expected, marks, best, len)
}

// The result of a text that ends here.
fn ended<X: Text + Drop>(
    text: X,
    tables: Tables<'_>,
    expected: Vec<Symbol>,
    marks: Vec<u32>,
    best: Option<Fault<X::Kind>>,
    len: u64,
) -> Result<X::Made, Refusal<X::Kind>>
    requires { IsTableOf tables (X.text_of text).grammar }
    ensures { (es : List (Event X.Piece)) → X.Knows text es → Says X.Makes
        (answered (reader (X.text_of text)) (fault_of best)
        ((reader (X.text_of text)).finish (record { events = es; expected = onto expected.items [] }))
        (record { kind = (X.text_of text).stop_kind None; at = len })) result }
{
    let mut text = text;
    let mut tables = tables;
    let mut expected = expected;
    let mut marks = marks;
    marks.clear();
    let end = tables.end;
    match meet(&mut expected, &mut marks, &mut tables, end)? {
        Meeting::Passed => {
            do_all(&mut text, &marks)?;
            match best {
                Some(fault) => Err(Refusal::Refuses(fault)),
                None => Ok(text.finish()?),
            }
        }
        _ => Err(Refusal::Refuses(stop_kind(&text, best, None, len))),
    }
}
