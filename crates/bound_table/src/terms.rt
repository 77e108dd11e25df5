//! Reads a part as a constant factor times other factors, and a bound as a list of terms.

ghost use Rattle.std.specs.Prelude.{◌≡◌};
ghost use Rattle.bound_expr.specs.Views.{bound_of, bounds_of};
ghost use Rattle.bound_expr.specs.Kinds.{is_constant, is_sum as is_sum_of};
ghost use Rattle.bound_table.specs.Kinds.{is_zero as is_nothing, is_power_or_input};
ghost use Rattle.bound_table.specs.Terms.{constant_of, factors_of, leading_constant, after_constant};
ghost use Rattle.bound_table.specs.Below.{terms_of as parts_of_sum};

use bound_expr::Bound;
use std::slice;

// A part of a sum as a constant times factors.
#[derive(Drop)]
pub(crate) struct Term<'a> {
    pub(crate) constant: u128,
    pub(crate) factors: &'a [Bound],
}

// A part as a constant times factors.
pub(crate) fn term_of(part: &Bound) -> Term<'_>
    ensures constant { result.constant ≡ constant_of (bound_of part.now) }
    ensures factors { bounds_of result.factors.now ≡ factors_of (bound_of part.now) }
{
    match part {
        Bound::Const(c) => Term {
            constant: *c,
            factors: &[],
        },
        Bound::Prod(parts) => product_term(parts),
        Bound::Var(_) | Bound::Sum(_) | Bound::Max(_) | Bound::Power(_, _) => Term {
            constant: 1,
            factors: slice::from_ref(part),
        },
    }
}

// The parts of a product as a constant times factors.
fn product_term(parts: &[Bound]) -> Term<'_>
    ensures constant { result.constant ≡ leading_constant (bounds_of parts.now) }
    ensures factors { bounds_of result.factors.now ≡ after_constant (bounds_of parts.now) }
{
    let Some((first, rest)) = parts.split_first() else {
        return Term {
            constant: 1,
            factors: parts,
        };
    };
    match first {
        Bound::Const(c) => Term {
            constant: *c,
            factors: rest,
        },
        Bound::Var(_) | Bound::Sum(_) | Bound::Prod(_) | Bound::Max(_) | Bound::Power(_, _) =>
            Term {
                constant: 1,
                factors: parts,
            },
    }
}

// The parts of a sum; a bound that is no sum is its own only part.
pub(crate) fn terms_of(bound: &Bound) -> &[Bound]
    ensures { bounds_of result.now ≡ parts_of_sum (bound_of bound.now) }
{
    match bound {
        Bound::Sum(parts) => parts,
        Bound::Const(_) | Bound::Var(_) | Bound::Prod(_) | Bound::Max(_) | Bound::Power(_, _) =>
            slice::from_ref(bound),
    }
}

// Whether it is a constant.
pub(crate) fn is_const(bound: &Bound) -> bool
    ensures { result ≡ is_constant (bound_of bound.now) }
{
    match bound {
        Bound::Const(_) => true,
        Bound::Var(_) | Bound::Sum(_) | Bound::Prod(_) | Bound::Max(_) | Bound::Power(_, _) =>
            false,
    }
}

// Whether it is a sum.
pub(crate) fn is_sum(bound: &Bound) -> bool
    ensures { result ≡ is_sum_of (bound_of bound.now) }
{
    match bound {
        Bound::Sum(_) => true,
        Bound::Const(_) | Bound::Var(_) | Bound::Prod(_) | Bound::Max(_) | Bound::Power(_, _) =>
            false,
    }
}

// Whether it is the constant 0.
pub(crate) fn is_zero(bound: &Bound) -> bool
    ensures { result ≡ is_nothing (bound_of bound.now) }
{
    match bound {
        Bound::Const(c) => *c == 0,
        Bound::Var(_) | Bound::Sum(_) | Bound::Prod(_) | Bound::Max(_) | Bound::Power(_, _) =>
            false,
    }
}

// Whether it is a power or a variable.
pub(crate) fn is_power_or_var(bound: &Bound) -> bool
    ensures { result ≡ is_power_or_input (bound_of bound.now) }
{
    match bound {
        Bound::Power(_, _) | Bound::Var(_) => true,
        Bound::Const(_) | Bound::Sum(_) | Bound::Prod(_) | Bound::Max(_) => false,
    }
}
