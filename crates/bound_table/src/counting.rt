//! Counts the parts of a list that are of a given sort.

ghost use Rattle.std.specs.Prelude.{◌≡◌};
ghost use Rattle.std.specs.List.{list_any, count_by};
ghost use Rattle.bound_expr.specs.Views.{bound_of, bounds_of};
ghost use Rattle.bound_table.specs.Counting.{is_counted as counts};

use crate::kinds::Counted;
use crate::terms::{is_const, is_zero};
use bound_expr::Bound;

// How many of the parts are of the sort `counted`.
pub(crate) fn how_many(counted: Counted, parts: &[Bound]) -> usize
    ensures { result ≡ count_by (counts counted) (bounds_of parts.now) }
{
    let mut number = 0usize;
    for part in parts {
        if is_counted(counted, part) {
            number += 1;
        }
    }
    number
}

// Whether one of the parts is of the sort `counted`.
pub(crate) fn has(counted: Counted, parts: &[Bound]) -> bool
    ensures { result ≡ list_any (counts counted) (bounds_of parts.now) }
{
    for part in parts {
        if is_counted(counted, part) {
            return true;
        }
    }
    false
}

// Whether a bound is of the sort `counted`.
fn is_counted(counted: Counted, bound: &Bound) -> bool
    ensures { result ≡ counts counted (bound_of bound.now) }
{
    match counted {
        Counted::Constants => is_const(bound),
        Counted::Zeros => is_zero(bound),
        Counted::Powers => matches!(bound, Bound::Power(_, _)),
        Counted::Nests => matches!(bound, Bound::Sum(_) | Bound::Max(_)),
        Counted::Inputs => matches!(bound, Bound::Var(_)),
    }
}
