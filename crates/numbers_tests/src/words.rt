//! Numbers, fractions and forms in words.

use frac128::Frac;
use lp_builder::Row;
use model::Memory;
use std::alloc::Global;

/// The parts of a text before and after its first semicolon.
pub(crate) fn split_at_semicolon(text: &str) -> (&str, &str) {
    text.split_once(';').unwrap_or((text, ""))
}

/// A number that isn't negative; of other words, 0.
pub(crate) fn number(word: &str) -> u32 {
    word.trim().parse::<u32>().unwrap_or(0)
}

/// The numbers among words.
pub(crate) fn numbers(alloc: Global, words: &str) -> Result<Vec<i128>, Memory> {
    let mut found = Vec::new(alloc);
    for word in words.split_whitespace() {
        if let Ok(number) = word.parse::<i128>() {
            found.push(number)?;
        }
    }
    Ok(found)
}

/// The form of its coefficients and, last, its constant.
pub(crate) fn form(alloc: Global, words: &str) -> Result<Row, Memory> {
    let mut coefs = numbers(alloc, words)?;
    let constant = coefs.pop().unwrap_or(0);
    Ok(Row { coefs, constant })
}

/// The fraction of a word, `1/2` or `1`. None if the word isn't one, its denominator is 0 or a number is -2^127.
pub(crate) fn fraction(word: &str) -> Option<Frac> {
    let (num, den) = word.trim().split_once('/').unwrap_or((word.trim(), "1"));
    let den = den.parse::<i128>().ok()?;
    if den == 0 {
        return None;
    }
    Frac::new(num.parse::<i128>().ok()?, den).ok()
}

/// A fraction as text, or `none`.
pub(crate) fn fraction_text(alloc: Global, fraction: Option<Frac>) -> Result<String, Memory> {
    match fraction {
        None => String::from_str(alloc, "none"),
        Some(fraction) => if fraction.den == 1 {
            format!(in alloc; "{}", fraction.num)
        } else {
            format!(in alloc; "{}/{}", fraction.num, fraction.den)
        },
    }
}

/// Adds fractions, each after a blank.
pub(crate) fn push_fractions(
    alloc: Global,
    text: &mut String,
    fractions: &[Frac],
) -> Result<(), Memory> {
    for fraction in fractions {
        text.push_str(" ")?;
        text.push_str(fraction_text(alloc, Some(*fraction))?.as_str())?;
    }
    Ok(())
}
