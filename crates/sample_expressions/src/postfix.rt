//! Reads expressions in reverse Polish notation.

use poly_terms::{Expr, Memory};
use std::alloc::Global;

/// The expression of words with blanks between them: `A 1 + 2 ^` is (A + 1)^2, and `A ~` is -A. `A` to `Z` are the
/// first variables, and `x30` is the variable with the number 30. A missing operand is 0.
///
/// # Errors
///
/// `Memory` where an allocation fails.
pub fn expression(alloc: Global, text: &str) -> Result<Expr, Memory> {
    let mut operands = Vec::new(alloc);
    for word in text.split_whitespace() {
        let made = part(alloc, &mut operands, word)?;
        operands.push(made)?;
    }
    Ok(operand(&mut operands))
}

// The operand that was read last.
fn operand(operands: &mut Vec<Expr>) -> Expr {
    operands.pop().unwrap_or(Expr::Num(0))
}

// The operands after a word, by the operands before it.
fn part(alloc: Global, operands: &mut Vec<Expr>, word: &str) -> Result<Expr, Memory> {
    if let Ok(number) = word.parse::<i128>() {
        return Ok(Expr::Num(number));
    }
    if let Some((_, digits)) = word.split_once('x') {
        return Ok(Expr::Var(digits.parse::<u32>().unwrap_or(0)));
    }
    let byte = word.as_bytes().first().copied().unwrap_or(b'A');
    if byte.is_ascii_uppercase() {
        return Ok(Expr::Var(byte.wrapping_sub(b'A') as u32));
    }
    let last = operand(operands);
    if byte == b'~' {
        return Expr::negation(alloc, last);
    }
    joined(alloc, byte, operand(operands), last)
}

// Two operands with an operator between them.
fn joined(alloc: Global, operator: u8, left: Expr, right: Expr) -> Result<Expr, Memory> {
    match operator {
        b'+' => Expr::sum(alloc, left, right),
        b'-' => Expr::difference(alloc, left, right),
        b'*' => Expr::product(alloc, left, right),
        _ => match right {
            Expr::Num(exponent) => Expr::power(alloc, left, u32::try_from(exponent).unwrap_or(0)),
            _ => Ok(left),
        },
    }
}
