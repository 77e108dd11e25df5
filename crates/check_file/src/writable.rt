//! Checks bounds that are written in a proof file.

ghost use Rattle.std.specs.Prelude.{◌↔◌, IsTrue};
ghost use Rattle.bound_expr.specs.Views.{bound_of, bounds_of, parts_of};
ghost use Rattle.check_file.specs.Writables.{IsWritable, AreWritable};

use bound_expr::{Bound, CONSTANT_LIMIT};

/// Whether the inputs of a bound are among the first `inputs` ones, its bases at least 2 and its constants at most
/// 2^127-1.
#[cycle(writable)]
pub(crate) fn is_writable(bound: &Bound, inputs: u32) -> bool
    ensures { IsTrue result ↔ IsWritable inputs (bound_of bound.now) }
{
    match bound {
        Bound::Const(c) => *c <= CONSTANT_LIMIT,
        Bound::Var(i) => *i < inputs,
        Bound::Sum(parts) => are_writable(parts, inputs),
        Bound::Prod(parts) => are_writable(parts, inputs),
        Bound::Max(parts) => are_writable(parts, inputs),
        Bound::Power(base, exponent) => *base >= 2 && is_writable(exponent, inputs),
    }
}

// Whether each part is writable: with such inputs, bases and constants.
#[cycle(writable)]
fn are_writable(parts: &[Bound], inputs: u32) -> bool
    ensures { IsTrue result ↔ AreWritable inputs (parts_of (bounds_of parts.now)) }
{
    for part in parts {
        let fits = is_writable(part, inputs);
        if !fits {
            return false;
        }
    }
    true
}
