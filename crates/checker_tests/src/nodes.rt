//! Nodes by the parts of their words. MULTIPLIERS, SET and FLOOR are numbers divided by commas; MOVES are such lists
//! divided by `/`; FORMS are divided by `/` too, each a symbol, the constant and the coefficients. A side bound is
//! `poly`, or a denominator, the constant and the coefficients, and after a `/` the multipliers. MEMBERS are divided by
//! `+`, each RULE=PLACE=UP=LOW. BY is `never`, `empty=` with multipliers, or a side bound.

use crate::words::{first_and_rest, number, numbers, part, parts_of, signed, wide, wides};
use cert_types::{
    CostBy, CostNode, CycleNode, EmptyNode, Form, LocalBound, Member, Proof, RankNode,
    ResultVariable, SideBound, SpreadNode,
};
use model::Memory;
use std::alloc::Global;

/// A rule without a point.
pub(crate) fn empty_node(alloc: Global, parts: &[&str]) -> Result<EmptyNode, Memory> {
    Ok(EmptyNode {
        rule: number(part(parts, 0)),
        multipliers: wides(alloc, part(parts, 1))?,
    })
}

/// A ranking function.
pub(crate) fn rank_node(
    alloc: Global,
    parts: &[&str],
    uses: Vec<Proof>,
) -> Result<RankNode, Memory> {
    Ok(RankNode {
        rule: number(part(parts, 0)),
        set: numbers(alloc, part(parts, 1))?,
        den: wide(part(parts, 2)),
        forms: forms(alloc, part(parts, 3))?,
        moves: moves(alloc, part(parts, 4))?,
        floor: wides(alloc, part(parts, 5))?,
        uses,
    })
}

// The forms of a ranking function.
fn forms(alloc: Global, text: &str) -> Result<Vec<Form>, Memory> {
    let mut found = Vec::new(alloc);
    for list in text.split('/') {
        let all = signed(alloc, list)?;
        let (symbol, behind) = first_and_rest(alloc, &all)?;
        let (constant, coefs) = first_and_rest(alloc, &behind)?;
        found.push(Form {
            symbol: u32::try_from(symbol).unwrap_or(0),
            coefs,
            constant,
        })?;
    }
    Ok(found)
}

// The multipliers of each rule of a set.
fn moves(alloc: Global, text: &str) -> Result<Vec<Vec<u64>>, Memory> {
    let mut found = Vec::new(alloc);
    for list in text.split('/') {
        found.push(wides(alloc, list)?)?;
    }
    Ok(found)
}

// A side bound.
fn side_bound(alloc: Global, text: &str) -> Result<SideBound, Memory> {
    if text == "poly" {
        return Ok(SideBound::Poly);
    }
    let (form, multipliers) = text.split_once('/').unwrap_or((text, ""));
    let all = signed(alloc, form)?;
    let (den, behind) = first_and_rest(alloc, &all)?;
    let (constant, coefs) = first_and_rest(alloc, &behind)?;
    Ok(SideBound::Linear {
        den: den.unsigned_abs(),
        coefs,
        constant,
        multipliers: wides(alloc, multipliers)?,
    })
}

// A result variable with its side bounds, by their parts.
fn member(alloc: Global, parts: &[&str]) -> Result<Member, Memory> {
    Ok(Member {
        result_variable: ResultVariable {
            rule: number(part(parts, 0)),
            place: number(part(parts, 1)),
        },
        local: LocalBound {
            up: side_bound(alloc, part(parts, 2))?,
            low: side_bound(alloc, part(parts, 3))?,
        },
    })
}

/// The size of a place that doesn't loop.
pub(crate) fn spread_node(
    alloc: Global,
    parts: &[&str],
    uses: Vec<Proof>,
) -> Result<SpreadNode, Memory> {
    let Member {
        result_variable,
        local,
    } = member(alloc, parts)?;
    Ok(SpreadNode {
        result_variable,
        local,
        uses,
    })
}

/// The sizes of the members of a loop.
pub(crate) fn cycle_node(
    alloc: Global,
    parts: &[&str],
    uses: Vec<Proof>,
) -> Result<CycleNode, Memory> {
    let mut members = Vec::new(alloc);
    for text in part(parts, 0).split('+') {
        if !text.is_empty() {
            members.push(member(alloc, &parts_of(alloc, text, '=')?)?)?;
        }
    }
    Ok(CycleNode { members, uses })
}

/// The cost of a rule.
pub(crate) fn cost_node(
    alloc: Global,
    parts: &[&str],
    uses: Vec<Proof>,
) -> Result<CostNode, Memory> {
    let text = part(parts, 1);
    let by = match text.split_once('=') {
        Some((_, multipliers)) => CostBy::Empty(wides(alloc, multipliers)?),
        None => if text == "never" {
            CostBy::Never
        } else {
            CostBy::SideBound(side_bound(alloc, text)?)
        },
    };
    Ok(CostNode {
        rule: number(part(parts, 0)),
        by,
        uses,
    })
}
