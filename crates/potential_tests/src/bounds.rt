//! Bounds as a line writes them: words, each of which takes bounds from those before it. `7` is a number, `[1*0` a
//! positive part; `+3`, `*2`, `max2` and `min2` take as many bounds as their number says, `/2` and `root` one.

use crate::numbers::{long, poly};
use check_potentials::Memory;
use signed_bounds::Signed;
use std::alloc::Global;

/// A bound.
pub(crate) fn bound(alloc: Global, text: &str) -> Result<Signed, Memory> {
    let mut stack = Vec::new(alloc);
    for word in text.split_whitespace() {
        let made = apply_word(alloc, &mut stack, word)?;
        stack.push(made)?;
    }
    Ok(pop_bound(&mut stack))
}

// The last bound, 0 where there is none.
fn pop_bound(stack: &mut Vec<Signed>) -> Signed {
    match stack.pop() {
        Some(bound) => bound,
        None => Signed::Const(0),
    }
}

// The last `count` bounds, in order, which are taken off the stack.
fn pop_bounds(alloc: Global, stack: &mut Vec<Signed>, count: &str) -> Result<Vec<Signed>, Memory> {
    let mut parts = Vec::new(alloc);
    for _ in 0..long(count) {
        parts.push(pop_bound(stack))?;
    }
    parts.reverse();
    Ok(parts)
}

// Applies a word to the bounds before it.
fn apply_word(alloc: Global, stack: &mut Vec<Signed>, word: &str) -> Result<Signed, Memory> {
    if let Some(form) = word.strip_prefix('[') {
        return Ok(Signed::Part(poly(alloc, form)?));
    }
    if let Some(count) = word.strip_prefix('+') {
        return Ok(Signed::Sum(pop_bounds(alloc, stack, count)?));
    }
    if let Some(count) = word.strip_prefix('*') {
        return Ok(Signed::Prod(pop_bounds(alloc, stack, count)?));
    }
    if let Some(divisor) = word.strip_prefix('/') {
        let part = Box::new(alloc, pop_bound(stack))?;
        return Ok(Signed::Quotient(part, u128::from(long(divisor))));
    }
    if word == "root" {
        let part = Box::new(alloc, pop_bound(stack))?;
        return Ok(Signed::Root(part));
    }
    extremum_or_number(alloc, stack, word)
}

// A maximum, a minimum or a number.
fn extremum_or_number(
    alloc: Global,
    stack: &mut Vec<Signed>,
    word: &str,
) -> Result<Signed, Memory> {
    if let Some(count) = word.strip_prefix("max") {
        return Ok(Signed::Max(pop_bounds(alloc, stack, count)?));
    }
    if let Some(count) = word.strip_prefix("min") {
        let mut parts = pop_bounds(alloc, stack, count)?;
        let first = Box::new(alloc, pop_bound(&mut parts))?;
        return Ok(Signed::Min(first, parts));
    }
    Ok(Signed::Const(u128::from(long(word))))
}
