//! The text of a file that isn't accepted: the first refusal, and its reason.

ghost use Rattle.std.specs.Prelude.{◌≡◌, ◌++◌, map, slice_get, codes, decimal, IfOk, OnOk};
ghost use Rattle.its_model.specs.Views.{program_of, symbol_of};
ghost use Rattle.cert_types.specs.AnswerViews.{fault_of, reason_of};
ghost use Rattle.check_text.specs.Texts.{side_bound_text, balance_text, fault_text, name_in, refused_gap_text, refused_node_text};
ghost use Rattle.check_text.specs.Texts.{place_text, reason_text};
ghost use Rattle.check_text.specs.StatedErrors.{StatesError};

use crate::numbers::{push_number, push_place};
use cert_types::{GapFault, Reason};
use check_file::CheckError;
use its_model::{Program, Symbol};
use model::Memory;
use std::alloc::{AllocError, Global};

/// The first refusal, and its reason.
///
/// # Errors
///
/// `Memory` where an allocation fails, and where the file wasn't checked because memory ran out.
pub(crate) fn error_text(alloc: Global, p: &Program, error: &CheckError) -> Result<Vec<u8>, Memory>
    ensures { IfOk result (λ text. StatesError (program_of p.now) error.now text.items) }
{
    match error {
        CheckError::No {
            lemma,
            node,
            reason,
        } => node_text(alloc, *lemma, *node, reason),
        CheckError::NoGap { gap, fault } => gap_text(alloc, p, *gap, fault),
        CheckError::Memory => Err(AllocError),
    }
}

/// The text of the first node that isn't accepted: its lemma and its number there, both from 1 on, and its first
/// reason.
///
/// # Errors
///
/// `Memory` where an allocation fails.
pub fn node_text(alloc: Global, lemma: u32, node: u32, reason: &Reason) -> Result<Vec<u8>, Memory>
    ensures { IfOk result (λ text. text.items ≡ refused_node_text lemma node (reason_of reason.now)) }
{
    let mut text = Vec::from_slice(alloc, b"no lemma ")?;
    push_number(&mut text, u64::from(lemma))?;
    text.extend_from_slice(b" node ")?;
    push_number(&mut text, u64::from(node))?;
    text.extend_from_slice(b": ")?;
    push_reason(&mut text, reason)?;
    text.extend_from_slice(b"\n")?;
    Ok(text)
}

/// The text of the first gap that doesn't hold, by its number from 1 on, and its first fault, with the names of the
/// symbols of the program that the gap is about.
///
/// # Errors
///
/// `Memory` where an allocation fails.
pub fn gap_text(alloc: Global, p: &Program, gap: u32, fault: &GapFault) -> Result<Vec<u8>, Memory>
    ensures { IfOk result (λ text. text.items ≡ refused_gap_text (program_of p.now) gap (fault_of fault.now)) }
{
    let mut text = Vec::from_slice(alloc, b"no gap ")?;
    push_number(&mut text, u64::from(gap))?;
    text.extend_from_slice(b": ")?;
    push_fault(&mut text, &p.symbols, fault)?;
    text.extend_from_slice(b"\n")?;
    Ok(text)
}

// Why a node isn't accepted.
fn push_reason(text: &mut Vec<u8>, reason: &Reason) -> Result<(), Memory>
    ensures { OnOk result (text.new.items ≡ text.old.items ++ reason_text (reason_of reason.now)) }
{
    match reason {
        Reason::Shape => text.extend_from_slice(b"shape"),
        Reason::Empty => text.extend_from_slice(b"empty"),
        Reason::Reached => text.extend_from_slice(b"reached"),
        Reason::Zero => text.extend_from_slice(b"zero"),
        Reason::Move { rule } => push_rule(text, b"move ", *rule),
        Reason::Floor => text.extend_from_slice(b"floor"),
        Reason::SideBoundUp { rule, place } => push_side_bound(text, *rule, *place, b" up"),
        Reason::SideBoundLow { rule, place } => push_side_bound(text, *rule, *place, b" low"),
        Reason::MissingTime { rule } => push_rule(text, b"missing time ", *rule),
        Reason::MissingSize { rule, place } => push_result_variable(
            text,
            b"missing size ",
            *rule,
            *place,
        ),
        Reason::Nonlinear { rule, place } => push_result_variable(text, b"bent ", *rule, *place),
        Reason::Large { nodes } => push_large(text, *nodes),
        Reason::Weaker => text.extend_from_slice(b"weaker"),
    }
}

// A rule after a word.
fn push_rule(text: &mut Vec<u8>, word: &[u8], rule: u32) -> Result<(), Memory>
    ensures { OnOk result (text.new.items ≡ text.old.items ++ (word.now ++ decimal rule)) }
{
    text.extend_from_slice(word)?;
    push_number(text, u64::from(rule))
}

// A rule and a place after a word.
fn push_result_variable(
    text: &mut Vec<u8>,
    word: &[u8],
    rule: u32,
    place: u32,
) -> Result<(), Memory>
    ensures { OnOk result (text.new.items ≡ text.old.items ++ (word.now ++ place_text rule place)) }
{
    text.extend_from_slice(word)?;
    push_place(text, rule, place)
}

// A side bound: its rule, its place and its side.
fn push_side_bound(text: &mut Vec<u8>, rule: u32, place: u32, side: &[u8]) -> Result<(), Memory>
    ensures { OnOk result (text.new.items ≡ text.old.items ++ side_bound_text rule place side.now) }
{
    text.extend_from_slice(b"arm ")?;
    push_place(text, rule, place)?;
    text.extend_from_slice(side)
}

// Writes a bound's number of nodes.
fn push_large(text: &mut Vec<u8>, nodes: u64) -> Result<(), Memory>
    ensures { OnOk result (text.new.items ≡ text.old.items ++ (codes "large " ++ decimal nodes)) }
{
    text.extend_from_slice(b"large ")?;
    push_number(text, nodes)
}

// Why a gap doesn't hold.
fn push_fault(text: &mut Vec<u8>, symbols: &[Symbol], fault: &GapFault) -> Result<(), Memory>
    ensures { OnOk result
        (text.new.items ≡ text.old.items ++ fault_text (map symbol_of symbols.now) (fault_of fault.now)) }
{
    match fault {
        GapFault::Shape => text.extend_from_slice(b"shape"),
        GapFault::Move { rule } => push_rule(text, b"move ", *rule),
        GapFault::Floor => text.extend_from_slice(b"floor"),
        GapFault::Kept { rule } => push_rule(text, b"kept ", *rule),
        GapFault::Balance { symbol, place } => push_balance(text, symbols, *symbol, *place),
        GapFault::Nothing => text.extend_from_slice(b"nothing"),
    }
}

// The balance of a place of a symbol.
fn push_balance(
    text: &mut Vec<u8>,
    symbols: &[Symbol],
    symbol: u32,
    place: u32,
) -> Result<(), Memory>
    ensures { OnOk result
        (text.new.items ≡ text.old.items ++ balance_text (map symbol_of symbols.now) symbol place) }
{
    text.extend_from_slice(b"balance ")?;
    push_name(text, symbols, symbol)?;
    text.extend_from_slice(b".")?;
    push_number(text, u64::from(place))
}

// The name of a symbol.
fn push_name(text: &mut Vec<u8>, symbols: &[Symbol], symbol: u32) -> Result<(), Memory>
    ensures { OnOk result
        (text.new.items ≡ text.old.items ++ name_in (slice_get (map symbol_of symbols.now) symbol)) }
{
    match symbols.get(symbol as usize) {
        Some(symbol) => text.extend_from_slice(&symbol.name.bytes),
        None => Ok(()),
    }
}
