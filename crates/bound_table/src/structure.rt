//! The structural order of bounds.

ghost use Rattle.std.specs.Prelude.{◌≡◌};
ghost use Rattle.std.specs.Ordering.{is_eq};
ghost use Rattle.bound_expr.specs.Views.{bound_of, bounds_of, parts_of};
ghost use Rattle.bound_table.specs.Comparison.{compared, all_compared, kind_rank as rank_of};

use bound_expr::Bound;
use std::cmp::Ordering;

/// The structural order of two bounds: by kind, in the order constant, variable, sum, product, maximum, power; then by
/// numbers, by lists part by part with a proper prefix first, and by the base of a power before its exponent.
#[cycle(compare)]
pub fn compare(a: &Bound, b: &Bound) -> Ordering
    ensures { result ≡ compared (bound_of a.now) (bound_of b.now) }
{
    match (a, b) {
        (Bound::Const(c), Bound::Const(d)) => c.cmp(d),
        (Bound::Var(i), Bound::Var(j)) => i.cmp(j),
        (Bound::Sum(parts), Bound::Sum(others)) => compare_all(parts, others),
        (Bound::Prod(parts), Bound::Prod(others)) => compare_all(parts, others),
        (Bound::Max(parts), Bound::Max(others)) => compare_all(parts, others),
        (Bound::Power(base, exponent), Bound::Power(other_base, other_exponent)) => {
            base.cmp(other_base).then(compare(exponent, other_exponent))
        }
        _ => kind_rank(a).cmp(&kind_rank(b)),
    }
}

// Whether two bounds are the same, node for node.
pub(crate) fn is_same(a: &Bound, b: &Bound) -> bool
    ensures { result ≡ is_eq (compared (bound_of a.now) (bound_of b.now)) }
{
    compare(a, b) == Ordering::Equal
}

/// The order of two lists of bounds, part by part, a proper prefix first.
#[cycle(compare)]
pub(crate) fn compare_all(parts: &[Bound], others: &[Bound]) -> Ordering
    ensures { result ≡ all_compared (parts_of (bounds_of parts.now)) (parts_of (bounds_of others.now)) }
{
    let mut left = others;
    for part in parts {
        let Some((other, rest)) = left.split_first() else {
            return Ordering::Greater;
        };
        let order = compare(part, other);
        if order != Ordering::Equal {
            return order;
        }
        left = rest;
    }
    if left.is_empty() {
        Ordering::Equal
    } else {
        Ordering::Less
    }
}

// The rank of a kind of bound in the order.
fn kind_rank(bound: &Bound) -> u8
    ensures { result ≡ rank_of (bound_of bound.now) }
{
    match bound {
        Bound::Const(_) => 0,
        Bound::Var(_) => 1,
        Bound::Sum(_) => 2,
        Bound::Prod(_) => 3,
        Bound::Max(_) => 4,
        Bound::Power(_, _) => 5,
    }
}
