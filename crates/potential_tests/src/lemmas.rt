//! Lemmas as a line writes them, divided by semicolons. A lemma is the kind of its node, and after a blank its parts,
//! divided by `|`, of which the last is the bound: `fall` functions, denominator, moves, payments; `peak` rule,
//! polynomial and, after `:`, certificate, then functions, denominator, moves; `row` rule, polynomial, number and,
//! after `:`, certificate; `times` rule, polynomial and two facts; `least` and `add` two facts; `among` a fact and
//! charges; `sized` rule, polynomial and facts; `phases` both functions, denominator, moves, counted rules.

use crate::bounds::bound;
use crate::numbers::{certificate, long, number, poly};
use crate::tables::{before_and_after, counted_rules, functions, moves, payments, phase_moves};
use check_potentials::Memory;
use potential_types::{
    Charge, Combination, FallNode, PeakNode, PhasesNode, PotentialTable, RowNode, SignedLemma,
    SignedNode, SizedNode,
};
use std::alloc::Global;

/// Lemmas.
pub(crate) fn parse_lemmas(alloc: Global, text: &str) -> Result<Vec<SignedLemma>, Memory> {
    let mut lemmas = Vec::new(alloc);
    for part in text.split(';') {
        let (kind, rest) = before_and_after(part.trim(), ' ');
        lemmas.push(lemma(alloc, kind, rest)?)?;
    }
    Ok(lemmas)
}

// A lemma, by its kind and its parts.
fn lemma(alloc: Global, kind: &str, text: &str) -> Result<SignedLemma, Memory> {
    let (parts, stated) = text.rsplit_once('|').unwrap_or(("", text));
    Ok(SignedLemma {
        node: node(alloc, kind, parts)?,
        bound: bound(alloc, stated)?,
    })
}

// A node, by its kind and its parts.
fn node(alloc: Global, kind: &str, text: &str) -> Result<SignedNode, Memory> {
    match kind {
        "fall" => Ok(SignedNode::Fall(fall(alloc, text)?)),
        "peak" => Ok(SignedNode::Peak(peak(alloc, text)?)),
        "row" => Ok(SignedNode::Row(row(alloc, text)?)),
        "sized" => Ok(SignedNode::Sized(sized(alloc, text)?)),
        "phases" => Ok(SignedNode::InPhases(phases(alloc, text)?)),
        _ => Ok(SignedNode::Combined(combination(alloc, kind, text)?)),
    }
}

// Functions, their denominator and moves: the first three parts.
fn table(alloc: Global, text: &str) -> Result<PotentialTable, Memory> {
    let (symbols, rest) = before_and_after(text, '|');
    let (den, rest) = before_and_after(rest, '|');
    let (steps, _) = before_and_after(rest, '|');
    Ok(PotentialTable {
        functions: functions(alloc, symbols)?,
        den: long(den),
        moves: moves(alloc, steps)?,
    })
}

// What is after the first three parts.
fn after_table(text: &str) -> &str {
    let (_, rest) = before_and_after(text, '|');
    let (_, rest) = before_and_after(rest, '|');
    let (_, rest) = before_and_after(rest, '|');
    rest
}

fn fall(alloc: Global, text: &str) -> Result<FallNode, Memory> {
    Ok(FallNode {
        potential: table(alloc, text)?,
        payments: payments(alloc, after_table(text))?,
    })
}

fn peak(alloc: Global, text: &str) -> Result<PeakNode, Memory> {
    let (covered, rest) = before_and_after(text, '|');
    let (head, floor) = before_and_after(covered, ':');
    let (rule, form) = before_and_after(head.trim(), ' ');
    Ok(PeakNode {
        potential: table(alloc, rest)?,
        rule: number(rule),
        form: poly(alloc, form)?,
        floor: certificate(alloc, floor)?,
    })
}

fn row(alloc: Global, text: &str) -> Result<RowNode, Memory> {
    let (head, shown) = before_and_after(text, ':');
    let (rule, rest) = before_and_after(head.trim(), ' ');
    let (form, least) = before_and_after(rest.trim(), ' ');
    Ok(RowNode {
        rule: number(rule),
        form: poly(alloc, form)?,
        number: long(least),
        certificate: certificate(alloc, shown)?,
    })
}

fn sized(alloc: Global, text: &str) -> Result<SizedNode, Memory> {
    let (rule, rest) = before_and_after(text.trim(), ' ');
    let (form, facts) = before_and_after(rest.trim(), ' ');
    let mut cited = Vec::new(alloc);
    for word in facts.split_whitespace() {
        cited.push(number(word))?;
    }
    Ok(SizedNode {
        rule: number(rule),
        form: poly(alloc, form)?,
        cited,
    })
}

fn phases(alloc: Global, text: &str) -> Result<PhasesNode, Memory> {
    let (firsts, rest) = before_and_after(text, '|');
    let (seconds, rest) = before_and_after(rest, '|');
    let (den, rest) = before_and_after(rest, '|');
    let (steps, counted) = before_and_after(rest, '|');
    Ok(PhasesNode {
        firsts: functions(alloc, firsts)?,
        seconds: functions(alloc, seconds)?,
        den: long(den),
        moves: phase_moves(alloc, steps)?,
        counted: counted_rules(alloc, counted)?,
    })
}

// A composed fact.
fn combination(alloc: Global, kind: &str, text: &str) -> Result<Combination, Memory> {
    let (first, rest) = before_and_after(text.trim(), ' ');
    match kind {
        "times" => product(alloc, number(first), rest),
        "least" => Ok(Combination::Least(number(first), number(rest))),
        "among" => Ok(Combination::Among(charges(alloc, rest)?, number(first))),
        _ => Ok(Combination::Add(number(first), number(rest))),
    }
}

// How often a rule occurs, times the peak of a polynomial.
fn product(alloc: Global, rule: u32, rest: &str) -> Result<Combination, Memory> {
    let (form, facts) = before_and_after(rest.trim(), ' ');
    let (time, peak) = before_and_after(facts.trim(), ' ');
    Ok(Combination::Times {
        rule,
        form: poly(alloc, form)?,
        time: number(time),
        peak: number(peak),
    })
}

/// Charges, divided by commas, each a rule and a polynomial.
pub(crate) fn charges(alloc: Global, text: &str) -> Result<Vec<Charge>, Memory> {
    let mut found = Vec::new(alloc);
    for part in text.split(',') {
        if let Some((rule, form)) = part.trim().split_once(' ') {
            found.push(Charge {
                rule: number(rule),
                form: poly(alloc, form)?,
            })?;
        }
    }
    Ok(found)
}
