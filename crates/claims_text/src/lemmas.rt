//! The texts that say why a lemma about potentials or a claim isn't accepted.

ghost use Rattle.std.specs.Prelude.{◌≡◌, ◌++◌, decimal, IfOk, OnOk};
ghost use Rattle.potential_types.specs.Views.{reason_of};
ghost use Rattle.claims_check.specs.Views as claim_views;
ghost use Rattle.claims_text.specs.Lemmas.{refused_lemma_text, refused_claim_text, lemma_reason, claim_reason};

use check_text::push_number;
use claims_check::ClaimReason;
use poly_terms::Memory;
use potential_types::Reason;
use std::alloc::Global;

/// The text of the first lemma about potentials that isn't accepted, by its number from 1 on among these lemmas, and
/// its first reason.
///
/// # Errors
///
/// `Memory` where an allocation fails.
pub fn lemma_text(alloc: Global, number: usize, reason: Reason) -> Result<Vec<u8>, Memory>
    ensures { IfOk result (λ text. text.items ≡ refused_lemma_text number (reason_of reason)) }
{
    let mut text = Vec::from_slice(alloc, b"no lemma ")?;
    push_number(&mut text, number as u64)?;
    text.extend_from_slice(b": ")?;
    push_reason(&mut text, reason)?;
    text.extend_from_slice(b"\n")?;
    Ok(text)
}

// Why a lemma isn't accepted.
fn push_reason(text: &mut Vec<u8>, reason: Reason) -> Result<(), Memory>
    ensures { OnOk result (text.new.items ≡ text.old.items ++ lemma_reason (reason_of reason)) }
{
    match reason {
        Reason::BadShape => text.extend_from_slice(b"shape"),
        Reason::MissingTime(rule) => push_rule(text, b"missing move ", rule),
        Reason::BadMove(rule) => push_rule(text, b"move ", rule),
        Reason::BadFloor(rule) => push_rule(text, b"floor ", rule),
        Reason::BadAmount(rule) => push_rule(text, b"amount ", rule),
        Reason::BadGain(rule) => push_rule(text, b"gain ", rule),
        Reason::LowBound => text.extend_from_slice(b"bound"),
    }
}

// A rule after a word.
fn push_rule(text: &mut Vec<u8>, word: &[u8], rule: u32) -> Result<(), Memory>
    ensures { OnOk result (text.new.items ≡ text.old.items ++ (word.now ++ decimal rule)) }
{
    text.extend_from_slice(word)?;
    push_number(text, u64::from(rule))
}

/// The text of the first claim that isn't accepted, by its number from 1 on, and why.
///
/// # Errors
///
/// `Memory` where an allocation fails.
pub fn claim_text(alloc: Global, number: usize, reason: ClaimReason) -> Result<Vec<u8>, Memory>
    ensures { IfOk result (λ text. text.items ≡ refused_claim_text number (claim_views.reason_of reason)) }
{
    let mut text = Vec::from_slice(alloc, b"no claim ")?;
    push_number(&mut text, number as u64)?;
    text.extend_from_slice(b": ")?;
    text.extend_from_slice(claim_reason_word(reason))?;
    text.extend_from_slice(b"\n")?;
    Ok(text)
}

// Why a claim isn't accepted.
fn claim_reason_word(reason: ClaimReason) -> &'static [u8]
    ensures { result.now ≡ claim_reason (claim_views.reason_of reason) }
{
    match reason {
        ClaimReason::NoRule => b"rule",
        ClaimReason::NoCost => b"cost",
        ClaimReason::NoPlace => b"place",
        ClaimReason::NoCopy => b"copy",
        ClaimReason::NoFact => b"fact",
        ClaimReason::BadLemma => b"lemma",
        ClaimReason::LowBound => b"bound",
    }
}
