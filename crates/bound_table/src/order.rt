//! The order in which the parts of a sum, a product or a maximum are sorted.

ghost use Rattle.std.specs.Prelude.{◌≡◌};
ghost use Rattle.std.specs.Cmp.Lexicographic.{slice_cmp};
ghost use Rattle.bound_expr.specs.Views.{bound_of, bounds_of};
ghost use Rattle.bound_table.specs.Comparison.{compared};
ghost use Rattle.bound_table.specs.Sorting.{factor_rank as rank_of, factors_compared, parts_compared, order_of};

use crate::counting::how_many;
use crate::kinds::{Counted, Kind};
use crate::structure::{compare, compare_all};
use crate::terms::term_of;
use bound_expr::{Bound, Memory};
use std::alloc::Global;
use std::cmp::Ordering;

// The order of two parts of a node of the kind.
pub(crate) fn order(kind: Kind, part: &Bound, other: &Bound) -> Ordering
    ensures { result ≡ order_of kind (bound_of part.now) (bound_of other.now) }
{
    match kind {
        Kind::AsProd => order_of_factors(part, other),
        Kind::AsSum | Kind::AsMax => order_of_parts(part, other),
    }
}

fn order_of_factors(part: &Bound, other: &Bound) -> Ordering
    ensures { result ≡ factors_compared (bound_of part.now) (bound_of other.now) }
{
    factor_rank(part)
        .cmp(&factor_rank(other))
        .then(compare(part, other))
}

// The rank of a kind of bound among factors.
fn factor_rank(bound: &Bound) -> u8
    ensures { result ≡ rank_of (bound_of bound.now) }
{
    match bound {
        Bound::Const(_) => 0,
        Bound::Power(_, _) => 1,
        Bound::Var(_) => 2,
        Bound::Max(_) => 3,
        Bound::Sum(_) => 4,
        Bound::Prod(_) => 5,
    }
}

fn order_of_parts(part: &Bound, other: &Bound) -> Ordering
    ensures { result ≡ parts_compared (bound_of part.now) (bound_of other.now) }
{
    let first = term_of(part);
    let second = term_of(other);
    let by_powers = how_many(Counted::Powers, second.factors).cmp(&how_many(
        Counted::Powers,
        first.factors,
    ));
    let by_nests = how_many(Counted::Nests, second.factors).cmp(&how_many(
        Counted::Nests,
        first.factors,
    ));
    let by_inputs = how_many(Counted::Inputs, second.factors).cmp(&how_many(
        Counted::Inputs,
        first.factors,
    ));
    let by_factors = factor_lists(first.factors, second.factors);
    let by_constant = second.constant.cmp(&first.constant);
    by_powers.then(by_nests.then(by_inputs.then(by_factors.then(by_constant))))
}

// The order of two lists of factors.
pub(crate) fn factor_lists(factors: &[Bound], others: &[Bound]) -> Ordering
    ensures { result ≡ slice_cmp compared (bounds_of factors.now) (bounds_of others.now) }
{
    compare_all(factors, others)
}
