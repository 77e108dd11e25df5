//! Compares expansions with the plain expansion: of expressions of lines, and of many pseudo-random ones.

use crate::plain::is_plain;
use crate::words::number;
use model::Memory;
use poly_terms::{Expr, Poly, PolyError, expand};
use sample_expressions::expression;
use std::alloc::Global;

// The next of a sequence of pseudo-random numbers.
fn next(seed: &mut u32) -> u32 {
    *seed = seed.wrapping_mul(1664525).wrapping_add(1013904223);
    *seed >> 16
}

// A pseudo-random number or variable.
fn leaf(seed: &mut u32) -> Expr {
    match next(seed) % 16 {
        0 => Expr::Num(0),
        1 => Expr::Num(1),
        2 => Expr::Num(2),
        3 => Expr::Num(-3),
        4 => Expr::Num(0x7fff_ffff_ffff_ffff),
        5 => Expr::Num(-0x4000_0000_0000_0000),
        6 => Expr::Num(0x8000_0000),
        7 => Expr::Num(0x8000_0000_0000_0000),
        _ => Expr::Var(next(seed) % 4),
    }
}

// The operand that was made last.
fn operand(stack: &mut Vec<Expr>, seed: &mut u32) -> Expr {
    match stack.pop() {
        Some(e) => e,
        None => leaf(seed),
    }
}

// The operands after a choice.
fn chosen(
    alloc: Global,
    stack: &mut Vec<Expr>,
    seed: &mut u32,
    choice: u32,
) -> Result<Expr, Memory> {
    if choice < 4 {
        return Ok(leaf(seed));
    }
    if choice == 5 {
        let exponent = next(seed) % 11;
        return Expr::power(alloc, operand(stack, seed), exponent);
    }
    let right = operand(stack, seed);
    match choice {
        4 => Expr::negation(alloc, right),
        6 => Expr::difference(alloc, operand(stack, seed), right),
        7 => Expr::product(alloc, operand(stack, seed), right),
        _ => Expr::sum(alloc, operand(stack, seed), right),
    }
}

// A pseudo-random tree of this many choices.
fn any_tree(alloc: Global, seed: &mut u32, choices: u32) -> Result<Expr, Memory> {
    let mut stack = Vec::new(alloc);
    for _ in 0..choices {
        let choice = next(seed) % 10;
        let e = chosen(alloc, &mut stack, seed, choice)?;
        stack.push(e)?;
    }
    Ok(operand(&mut stack, seed))
}

// How often trees expanded to a polynomial, to too large a coefficient and to another fault.
#[derive(Clone, Copy)]
struct Tally {
    whole: u32,
    large: u32,
    other: u32,
}

// The tally with one answer more.
fn tallied(tally: Tally, answer: &Result<Poly, PolyError>) -> Tally {
    let mut more = tally;
    match answer {
        Ok(_) => more.whole = tally.whole.saturating_add(1),
        Err(PolyError::CoefTooLarge) => more.large = tally.large.saturating_add(1),
        Err(_) => more.other = tally.other.saturating_add(1),
    }
    more
}

/// A number of trees, that each expands as by the plain expansion, and that more than 200 have a polynomial, more than
/// 50 too large a coefficient and more than 50 another fault; or the first tree that doesn't.
pub(crate) fn many_trees(alloc: Global, count: &str) -> Result<String, Memory> {
    let count = number(count);
    let mut tally = Tally {
        whole: 0,
        large: 0,
        other: 0,
    };
    let mut seed = 1;
    for i in 0..count {
        let e = any_tree(alloc, &mut seed, i % 40)?;
        let answer = expand(alloc, &e);
        if !is_plain(alloc, &e, &answer) {
            return format!(in alloc; "differs at {i}");
        }
        tally = tallied(tally, &answer);
    }
    let often = tally.whole > 200 && tally.large > 50 && tally.other > 50;
    let kinds = if often {
        "each kind often"
    } else {
        "a kind is rare"
    };
    format!(in alloc; "{count} trees, none differs, {kinds}")
}

/// Whether an expression expands as by the plain expansion.
pub(crate) fn compared(alloc: Global, text: &str) -> Result<String, Memory> {
    let e = expression(alloc, text)?;
    let alike = is_plain(alloc, &e, &expand(alloc, &e));
    String::from_str(
        alloc,
        if alike {
            "as by the plain expansion"
        } else {
            "differs"
        },
    )
}
