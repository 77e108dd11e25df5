//! Lemmas as lines write them: the words of their nodes, each after those of its children. The fields of a word, after
//! its kind, are divided by colons: `start`, `cite:LEMMA`, `empty:RULE:MULTIPLIERS`, `unreached:RULE:USES`, `never`,
//! `weaken:BOUND`, `rank:RULE:SET:DEN:FORMS:MOVES:FLOOR:USES`, `spread:RULE:PLACE:UP:LOW:USES`, `cycle:MEMBERS:USES`,
//! `cost:RULE:BY:USES`, where USES says how many of the nodes before are its uses. A bound is a term, or several that
//! `+` divides: a number, `v` with the number of an input from 0, or `b` with a base, which is raised to 1; a number
//! and `x` before a term repeat it this many times.

use crate::nodes::{cost_node, cycle_node, empty_node, rank_node, spread_node};
use crate::words::{number, part, parts_of, wide};
use bound_expr::Bound;
use cert_types::{Proof, UnreachedNode};
use model::Memory;
use std::alloc::Global;

/// The lemma whose nodes these words are, where there is a word.
pub(crate) fn lemma(alloc: Global, words: &str) -> Result<Option<Proof>, Memory> {
    let mut stack = Vec::new(alloc);
    for word in words.split_whitespace() {
        let proof = node(alloc, word, &mut stack)?;
        stack.push(proof)?;
    }
    Ok(stack.pop())
}

// The node of a word, over the nodes before it.
fn node(alloc: Global, word: &str, stack: &mut Vec<Proof>) -> Result<Proof, Memory> {
    let (kind, rest) = word.split_once(':').unwrap_or((word, ""));
    let parts = parts_of(alloc, rest, ':')?;
    match kind {
        "cite" => Ok(Proof::Cite(number(rest))),
        "empty" => Ok(Proof::Empty(Box::new(alloc, empty_node(alloc, &parts)?)?)),
        "never" => Ok(Proof::Never(Box::new(alloc, child(stack))?)),
        "weaken" => {
            let weaker = bound(alloc, rest)?;
            Ok(Proof::Weaken(Box::new(alloc, child(stack))?, weaker))
        }
        _ => keyed_node(alloc, kind, &parts, stack),
    }
}

// The node of a word that says how many uses it has; for any other word, `start`.
fn keyed_node(
    alloc: Global,
    kind: &str,
    parts: &[&str],
    stack: &mut Vec<Proof>,
) -> Result<Proof, Memory> {
    let count = number(part(parts, parts.len().saturating_sub(1)));
    match kind {
        "unreached" => {
            let uses = last(alloc, stack, count)?;
            let node = UnreachedNode {
                rule: number(part(parts, 0)),
                uses,
            };
            Ok(Proof::Unreached(Box::new(alloc, node)?))
        }
        "rank" => {
            let uses = last(alloc, stack, count)?;
            Ok(Proof::Rank(Box::new(alloc, rank_node(alloc, parts, uses)?)?))
        }
        "spread" => {
            let uses = last(alloc, stack, count)?;
            Ok(Proof::Spread(Box::new(alloc, spread_node(alloc, parts, uses)?)?))
        }
        "cycle" => {
            let uses = last(alloc, stack, count)?;
            Ok(Proof::Cycle(Box::new(alloc, cycle_node(alloc, parts, uses)?)?))
        }
        "cost" => {
            let uses = last(alloc, stack, count)?;
            Ok(Proof::Cost(Box::new(alloc, cost_node(alloc, parts, uses)?)?))
        }
        _ => Ok(Proof::Start),
    }
}

// The last node, as the child of one; if there is none, `start`.
fn child(stack: &mut Vec<Proof>) -> Proof {
    stack.pop().unwrap_or(Proof::Start)
}

// This many of the last nodes, in order.
fn last(alloc: Global, stack: &mut Vec<Proof>, count: u32) -> Result<Vec<Proof>, Memory> {
    let mut reversed = Vec::new(alloc);
    for _ in 0..count {
        if let Some(proof) = stack.pop() {
            reversed.push(proof)?;
        }
    }
    let mut uses = Vec::new(alloc);
    for _ in 0..count {
        if let Some(proof) = reversed.pop() {
            uses.push(proof)?;
        }
    }
    Ok(uses)
}

// A bound: a term, or a sum of several.
fn bound(alloc: Global, text: &str) -> Result<Bound, Memory> {
    let mut terms = Vec::new(alloc);
    for word in text.split('+') {
        push_terms(alloc, &mut terms, word)?;
    }
    if terms.len() > 1 {
        return Ok(Bound::Sum(terms));
    }
    Ok(terms.pop().unwrap_or(Bound::Const(0)))
}

// Appends a term of a bound, as often as its word says.
fn push_terms(alloc: Global, terms: &mut Vec<Bound>, word: &str) -> Result<(), Memory> {
    let (count, one) = word.split_once('x').unwrap_or(("1", word));
    for _ in 0..number(count) {
        terms.push(term(alloc, one)?)?;
    }
    Ok(())
}

// A term of a bound.
fn term(alloc: Global, word: &str) -> Result<Bound, Memory> {
    if let Some((_, input)) = word.split_once('v') {
        return Ok(Bound::Var(number(input)));
    }
    if let Some((_, base)) = word.split_once('b') {
        return Ok(Bound::Power(wide(base), Box::new(alloc, Bound::Const(1))?));
    }
    Ok(Bound::Const(word.parse::<u128>().unwrap_or(0)))
}
