//! The faults of numbers, names and places of a proof file.

ghost use Rattle.std.specs.Prelude.{◌≡◌, ◌≤◌, ◌^◌, is_some};
ghost use Rattle.its_model.specs.Views.{program_of};
ghost use Rattle.its_model.specs.model.Programs.{arity_of, rule_at};
ghost use Rattle.text_grammar.specs.text_core.Choices.{when as when_at};
ghost use Rattle.cert_text.specs.NumberFaults as reported_fault;
ghost use Rattle.cert_text.specs.ParsedSoFar.{own_of};

use crate::parsed_so_far::ParsedSoFar;
use crate::phase::Next;
use cert_lexer::{Behind, ProofKind, Word};
use its_model::Program;
use linear_forms::{CERTIFICATE_LIMIT, POINT_LIMIT};

/// The greatest level of a node, number of lemmas and number of gaps that are read.
pub const LEVEL_LIMIT: u64 = 64;
/// The greatest number of lemmas that are read.
pub const LEMMA_LIMIT: usize = 100_000;
/// The greatest number of gaps that are read.
pub const GAP_LIMIT: usize = 1_000;

// A kind, if a test passes.
fn when(test: bool, kind: ProofKind) -> Option<ProofKind>
    ensures { result ≡ when_at test kind }
{
    if test { Some(kind) } else { None }
}

// The first kind if there is one, else the other: of two faults at one position the first is reported.
fn or_else(first: Option<ProofKind>, other: Option<ProofKind>) -> Option<ProofKind>
    ensures { result ≡ reported_fault.or_else first other }
{
    match first {
        Some(kind) => Some(kind),
        None => other,
    }
}

// The fault of a number over its limit.
fn too_large(kept: &ParsedSoFar, number: u128) -> Option<ProofKind>
    ensures { result ≡ reported_fault.too_large (own_of kept.now) number }
{
    let limit = if kept.in_gap {
        POINT_LIMIT
    } else {
        CERTIFICATE_LIMIT
    };
    when(u128::from(limit) < number, ProofKind::NumberTooLarge)
}

// Whether there is an earlier lemma with this number.
fn has_lemma(kept: &ParsedSoFar, number: u128) -> bool
    ensures { result ≡ reported_fault.has_lemma (own_of kept.now) number }
{
    number > 0 && number <= kept.lemmas.len() as u128
}

// Whether there is a rule with this number.
fn has_rule(p: &Program, number: u128) -> bool
    ensures { result ≡ is_some (rule_at (program_of p.now) number) }
{
    number > 0 && number <= p.rules.len() as u128
}

// How many places a symbol has.
fn arity(p: &Program, symbol: u32) -> u32
    ensures { result ≡ arity_of (program_of p.now) symbol }
{
    let symbol = symbol as usize;
    if symbol < p.symbols.len() {
        p.symbols[symbol].arity
    } else {
        0
    }
}

// Whether a rule has a place of its target with this number.
fn has_place(p: &Program, rule: u32, number: u128) -> bool
    ensures { result ≡ reported_fault.has_place (program_of p.now) (rule_at (program_of p.now) rule) number }
{
    if rule == 0 || p.rules.len() < rule as usize {
        return false;
    }
    let target = p.rules[rule as usize - 1].target;
    number > 0 && number <= u128::from(arity(p, target))
}

/// The fault of a number, by what comes next.
pub fn fault_of_number(p: &Program, kept: &ParsedSoFar, number: u128) -> Option<ProofKind>
    ensures { result ≡ reported_fault.fault_of_number (program_of p.now) (own_of kept.now) kept.now.coming number }
{
    match kept.coming {
        Next::Nothing | Next::Node | Next::Symbol => None,
        Next::Lemma => or_else(
            too_large(kept, number),
            when(!has_lemma(kept, number), ProofKind::BadReference),
        ),
        Next::Rule => or_else(
            too_large(kept, number),
            when(!has_rule(p, number), ProofKind::BadReference),
        ),
        Next::Place => or_else(
            too_large(kept, number),
            when(
                !has_place(p, kept.draft.rule, number),
                ProofKind::BadReference,
            ),
        ),
        Next::Number => too_large(kept, number),
    }
}

/// The fault of a name, as a symbol, or as a word that begins a node or a line.
pub fn fault_of_name(p: &Program, kept: &ParsedSoFar, word: Word, symbol: u32) -> Option<ProofKind>
    ensures { result ≡ reported_fault.fault_of_name (program_of p.now) (own_of kept.now) kept.now.coming word symbol }
{
    match kept.coming {
        Next::Symbol => when(p.symbols.len() <= symbol as usize, ProofKind::BadReference),
        Next::Node => fault_of_node(kept, word),
        _ => fault_of_line(kept, word),
    }
}

// The fault of a word that begins a node.
fn fault_of_node(kept: &ParsedSoFar, word: Word) -> Option<ProofKind>
    ensures { result ≡ reported_fault.fault_of_node (own_of kept.now) word }
{
    let cost = matches!(word, Word::Cost);
    or_else(
        when(cost && !kept.priced, ProofKind::Syntax),
        when(LEVEL_LIMIT < kept.levels, ProofKind::TooDeep),
    )
}

// The fault of a word that begins a line.
fn fault_of_line(kept: &ParsedSoFar, word: Word) -> Option<ProofKind>
    ensures { result ≡ reported_fault.fault_of_line (own_of kept.now) word }
{
    match word {
        Word::Lemma => when(LEMMA_LIMIT <= kept.lemmas.len(), ProofKind::Limit),
        Word::Gap => when(GAP_LIMIT <= kept.gaps.len(), ProofKind::Limit),
        Word::End => when(kept.priced && !kept.paid, ProofKind::Syntax),
        _ => None,
    }
}

// The fault of the part after the name of a symbol that exists, as the number of one of its places.
fn fault_of_behind(
    p: &Program,
    kept: &ParsedSoFar,
    symbol: u32,
    behind: Behind,
) -> Option<ProofKind>
    ensures { result ≡ reported_fault.fault_of_behind (program_of p.now) (own_of kept.now) symbol behind }
{
    match behind {
        Behind::NoNumber | Behind::Nothing | Behind::LeadingZero => Some(ProofKind::Syntax),
        Behind::Number(number) => {
            let places = u128::from(arity(p, symbol));
            or_else(
                too_large(kept, number),
                when(number == 0 || places < number, ProofKind::BadReference),
            )
        }
    }
}

/// The fault of a place in a list of shut places.
pub fn fault_of_place(
    p: &Program,
    kept: &ParsedSoFar,
    symbol: u32,
    behind: Behind,
) -> Option<ProofKind>
    ensures { result ≡ reported_fault.fault_of_place (program_of p.now) (own_of kept.now) symbol behind }
{
    or_else(
        when(p.symbols.len() <= symbol as usize, ProofKind::BadReference),
        fault_of_behind(p, kept, symbol, behind),
    )
}

/// The number of bytes of a place before its fault.
pub fn name_bytes(p: &Program, symbol: u32, behind: Behind) -> u128
    ensures bytes { result ≡ reported_fault.name_bytes (program_of p.now) symbol behind }
    ensures small { result ≤ 2 ^ 64 }
{
    let symbol = symbol as usize;
    if symbol >= p.symbols.len() {
        return 0;
    }
    let name = p.symbols[symbol].name.bytes.len() as u128;
    match behind {
        Behind::NoNumber => name,
        _ => name + 1,
    }
}
