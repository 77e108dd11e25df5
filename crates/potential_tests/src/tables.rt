//! Functions, moves and payments as a line writes them, each divided by commas. A function is a symbol and a
//! polynomial. A move is a rule, `keep` or `set`, its gain and the number of a fact, 0 where none is cited; and after
//! `:` its certificate. A payment is a rule and an amount, and after `:` two certificates; a move of two phases a rule,
//! and after `:` two certificates; a counted rule a rule, and after `:` its certificate.

use crate::numbers::{certificate, number, poly};
use check_potentials::Memory;
use potential_types::{CountedRule, Move, Payment, PhaseMove, SymbolFunction};
use std::alloc::Global;

/// What is before a byte, and what is after it.
pub(crate) fn before_and_after(text: &str, at: char) -> (&str, &str) {
    text.split_once(at).unwrap_or((text, ""))
}

/// Functions.
pub(crate) fn functions(alloc: Global, text: &str) -> Result<Vec<SymbolFunction>, Memory> {
    let mut found = Vec::new(alloc);
    for part in text.split(',') {
        if let Some((symbol, form)) = part.trim().split_once(' ') {
            found.push(SymbolFunction {
                symbol: number(symbol),
                form: poly(alloc, form)?,
            })?;
        }
    }
    Ok(found)
}

/// Moves.
pub(crate) fn moves(alloc: Global, text: &str) -> Result<Vec<Move>, Memory> {
    let mut found = Vec::new(alloc);
    for part in text.split(',') {
        if let Some((rule, rest)) = part.trim().split_once(' ') {
            found.push(one_move(alloc, rule, rest)?)?;
        }
    }
    Ok(found)
}

// A move of a rule.
fn one_move(alloc: Global, rule: &str, rest: &str) -> Result<Move, Memory> {
    let (head, shown) = before_and_after(rest, ':');
    let (kind, gain) = before_and_after(head.trim(), ' ');
    let (form, cited) = before_and_after(gain.trim(), ' ');
    Ok(Move {
        rule: number(rule),
        keeps: kind == "keep",
        gain: poly(alloc, form)?,
        cited: citation(number(cited)),
        certificate: certificate(alloc, shown)?,
    })
}

// The number of a fact, where one is cited.
fn citation(number: u32) -> Option<u32> {
    if number == 0 {
        return None;
    }
    Some(number)
}

/// Payments.
pub(crate) fn payments(alloc: Global, text: &str) -> Result<Vec<Payment>, Memory> {
    let mut found = Vec::new(alloc);
    for part in text.split(',') {
        if let Some((rule, rest)) = part.trim().split_once(' ') {
            let (amount, shown) = before_and_after(rest, ':');
            let (floor, positive) = before_and_after(shown, ':');
            found.push(Payment {
                rule: number(rule),
                amount: poly(alloc, amount)?,
                floor: certificate(alloc, floor)?,
                positive: certificate(alloc, positive)?,
            })?;
        }
    }
    Ok(found)
}

/// Moves of two phases.
pub(crate) fn phase_moves(alloc: Global, text: &str) -> Result<Vec<PhaseMove>, Memory> {
    let mut found = Vec::new(alloc);
    for part in text.split(',') {
        if let Some((rule, shown)) = part.split_once(':') {
            let (first, second) = before_and_after(shown, ':');
            found.push(PhaseMove {
                rule: number(rule),
                first: certificate(alloc, first)?,
                second: certificate(alloc, second)?,
            })?;
        }
    }
    Ok(found)
}

/// Counted rules.
pub(crate) fn counted_rules(alloc: Global, text: &str) -> Result<Vec<CountedRule>, Memory> {
    let mut found = Vec::new(alloc);
    for part in text.split(',') {
        if let Some((rule, floor)) = part.split_once(':') {
            found.push(CountedRule {
                rule: number(rule),
                floor: certificate(alloc, floor)?,
            })?;
        }
    }
    Ok(found)
}
