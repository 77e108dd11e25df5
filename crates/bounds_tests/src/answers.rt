//! The results of calls on the bounds of a line.

use crate::based::is_based;
use crate::postfix::{bounds, number, written};
use crate::values::{POINTS, value};
use crate::{inside, texts};
use bound_expr::{Bound, Memory, apply};
use bound_table::{
    Case, Cases, LARGE, RewriteResult, SMALL, below, compare, rewrite, rewrite_within, simplify,
};
use std::alloc::Global;
use std::cmp::Ordering;

/// The answer to a line: a call, and after a blank its argument.
pub(crate) fn answer(alloc: Global, line: &str) -> Result<String, Memory> {
    let Some((call, rest)) = line.split_once(' ') else {
        return String::from_str(alloc, line);
    };
    match call {
        "#" => String::from_str(alloc, line),
        "read" => texts::read_text(alloc, rest),
        "printed" => texts::printed_text(alloc, rest),
        "repeated" => texts::repeated_text(alloc, rest),
        "prefixes" => texts::prefix_letters(alloc, rest),
        "taken" => inside::taken_text(alloc, rest),
        "stepped" => inside::stepped_text(alloc, rest),
        "power" => power(alloc, rest),
        _ => of_bounds(alloc, call, &bounds(alloc, rest)?),
    }
}

// The answer of a call on bounds.
fn of_bounds(alloc: Global, call: &str, standing: &[Bound]) -> Result<String, Memory> {
    match (call, standing) {
        ("Like-Order", [bound]) => {
            let table = Cases {
                list: [Case::Like, Case::Order],
            };
            written(alloc, &simplify(alloc, &table, bound)?)
        }
        ("Distribute-Flat", [bound]) => {
            let table = Cases {
                list: [Case::Distribute, Case::Flat],
            };
            written(alloc, &simplify(alloc, &table, bound)?)
        }
        ("small", [bound]) => written(alloc, &simplify(alloc, &SMALL, bound)?),
        ("large", [bound]) => written(alloc, &simplify(alloc, &LARGE, bound)?),
        ("rewrite", [bound]) => rewritten_text(alloc, bound),
        ("becomes", [bound, other]) => becomes(alloc, bound, other),
        ("within", [bound]) => within(alloc, bound),
        ("below", [first, second]) => String::from_str(alloc, lower(first, second)),
        ("compare", _) => orders(alloc, standing),
        ("measure", [bound]) => measures(alloc, bound),
        ("square", [size]) => square_of(alloc, size),
        ("copied", [bound]) => written(alloc, &bound.copied(alloc)?),
        (_, [bound]) => by_case(alloc, call, bound),
        _ => String::from_str(alloc, "another number of bounds"),
    }
}

fn case_of(name: &str) -> Option<Case> {
    match name {
        "Flat" => Some(Case::Flat),
        "FoldConst" => Some(Case::FoldConst),
        "ZeroProduct" => Some(Case::ZeroProduct),
        "Neutral" => Some(Case::Neutral),
        "PowerConst" => Some(Case::PowerConst),
        "PowerShift" => Some(Case::PowerShift),
        "PowerMerge" => Some(Case::PowerMerge),
        "Distribute" => Some(Case::Distribute),
        "Order" => Some(Case::Order),
        "Like" => Some(Case::Like),
        "Dominate" => Some(Case::Dominate),
        "Few" => Some(Case::Few),
        _ => None,
    }
}

// The result of rewriting a bound by a table of one case.
fn by_case(alloc: Global, name: &str, bound: &Bound) -> Result<String, Memory> {
    let Some(case) = case_of(name) else {
        return String::from_str(alloc, "no call");
    };
    written(alloc, &simplify(alloc, &Cases { list: [case] }, bound)?)
}

// The rewritten bound, if it has the same values.
fn rewritten_text(alloc: Global, bound: &Bound) -> Result<String, Memory> {
    let outcome = rewrite(alloc, bound)?;
    for at in &POINTS {
        if value(&outcome, at) != value(bound, at) {
            return String::from_str(alloc, "another value");
        }
    }
    written(alloc, &outcome)
}

// Whether the rewritten bound is the other one.
fn becomes(alloc: Global, bound: &Bound, other: &Bound) -> Result<String, Memory> {
    let is_other = rewrite(alloc, bound)? == *other;
    String::from_str(alloc, if is_other { "yes" } else { "no" })
}

fn within(alloc: Global, bound: &Bound) -> Result<String, Memory> {
    match rewrite_within(alloc, bound)? {
        RewriteResult::Rewritten(outcome) => written(alloc, &outcome),
        RewriteResult::Large { nodes } => format!(in alloc; "large: {nodes} nodes"),
    }
}

// Whether the first is below the second; none where a base is 0.
fn is_below(first: &Bound, second: &Bound) -> Option<bool> {
    if is_based(first) {
        if is_based(second) {
            return Some(below(first, second));
        }
    }
    None
}

// Whether the first bound is below the second, and its values are if it is.
fn lower(first: &Bound, second: &Bound) -> &'static str {
    match is_below(first, second) {
        Some(true) => {
            for at in &POINTS {
                if value(first, at) > value(second, at) {
                    return "yes, with a greater value";
                }
            }
            "yes"
        }
        Some(false) => "no",
        None => "a base is 0",
    }
}

// The order of each bound to each, row by row.
fn orders(alloc: Global, standing: &[Bound]) -> Result<String, Memory> {
    let mut text = String::new(alloc);
    for first in standing {
        if !text.is_empty() {
            text.push_str(" ")?;
        }
        for second in standing {
            text.push_str(sign(compare(first, second)))?;
        }
    }
    Ok(text)
}

fn sign(order: Ordering) -> &'static str {
    match order {
        Ordering::Less => "<",
        Ordering::Equal => "=",
        Ordering::Greater => ">",
    }
}

fn measures(alloc: Global, bound: &Bound) -> Result<String, Memory> {
    let (nodes, levels) = bound.measure();
    let large = if bound.is_large() { "" } else { "not " };
    format!(in alloc; "{nodes} nodes, {levels} levels, {large}large")
}

// The square of the only input, if the input is this bound.
#[tactic(auto, using(crate::proofs::Views::seen))]
fn square_of(alloc: Global, size: &Bound) -> Result<String, Memory> {
    let square = Bound::Prod(vec![in alloc; Bound::Var(0), Bound::Var(0)]?);
    let sizes = [size.copied(alloc)?];
    written(alloc, &apply(alloc, &square, &sizes)?)
}

// The capped value of a base to the power of a constant.
#[tactic(auto, using(crate::proofs::Views::seen))]
fn power(alloc: Global, text: &str) -> Result<String, Memory> {
    let Some((base, exponent)) = text.split_once(' ') else {
        return String::from_str(alloc, "no exponent");
    };
    let base = u64::try_from(number(base.as_bytes()).0).unwrap_or(0);
    let exponent = Bound::Const(number(exponent.as_bytes()).0);
    let bound = Bound::Power(base, Box::new(alloc, exponent)?);
    let value = bound.capped_value(&[]);
    format!(in alloc; "{value}")
}
