//! Calls on fractions.

use crate::words::{fraction, fraction_text};
use frac128::Frac;
use model::Memory;
use std::alloc::Global;

/// The answer of a call on one fraction or two, or `none` where a fraction isn't one, where its numbers exceed 127
/// bits, or where 0 divides.
pub(crate) fn computed(alloc: Global, call: &str, text: &str) -> Result<String, Memory> {
    let (left, right) = text.split_once(' ').unwrap_or((text, "1"));
    match (fraction(left), fraction(right)) {
        (Some(left), Some(right)) => match call {
            "floor" => format!(in alloc; "{}", left.floor()),
            "ceil" => format!(in alloc; "{}", left.ceil()),
            "compare" => format!(in alloc; "{:?}", left.cmp(right).ok()),
            _ => fraction_text(alloc, value(call, left, right)),
        },
        _ => String::from_str(alloc, "none"),
    }
}

// The value of an operation. `new` has its first operand, reduced.
fn value(call: &str, left: Frac, right: Frac) -> Option<Frac> {
    match call {
        "add" => left.add(right).ok(),
        "subtract" => left.sub(right).ok(),
        "multiply" => left.mul(right).ok(),
        "divide" => if right.num == 0 {
            None
        } else {
            left.div(right).ok()
        },
        "new" => Some(left),
        _ => None,
    }
}
