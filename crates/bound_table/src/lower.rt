//! The test `below`: a sufficient condition, on the structure of two bounds, for an order of their values.

ghost use Rattle.std.specs.Prelude.{◌≡◌, IsTrue, ◌≤◌, length};
ghost use Rattle.std.specs.List.{list_any, list_all};
ghost use Rattle.bound_expr.specs.model.Bounds.{IsBased};
ghost use Rattle.bound_expr.specs.Views.{bound_of, bounds_of};
ghost use Rattle.bound_expr.specs.Tidy.{IsNoMaximum};
ghost use Rattle.bound_table.specs.Below.{below as is_lower, below_one, term_below, factor_below, match_in_order, matched};
ghost use Rattle.bound_table.specs.Below.{IsNeverGreater};
ghost use Rattle.bound_table.specs.Taking.{paired_below, left_after, takes_fully, factors_taken, input_among, IsMarked};
ghost use Rattle.bound_table.specs.Kinds.{is_same_input};

use crate::counting::has;
use crate::kinds::{Counted, Pairing};
use crate::marks::{MARKED, is_same_var, mark};
use crate::terms::{is_power_or_var, term_of, terms_of};
use bound_expr::Bound;

/// Whether `a` is below `b`, by a test on their structure; a yes means that no value of `a` is greater than that of
/// `b`.
///
/// A constant 0 is below every bound. A maximum is below a bound if all of its parts are, and any other bound is below
/// a maximum if it is below one of its parts. Otherwise each part of `a`, in order, is paired with the first part of
/// `b`, after the one taken before, that it is below as a constant times factors.
pub fn below(a: &Bound, b: &Bound) -> bool
    requires a_based { IsBased (bound_of a.now) }
    requires b_based { IsBased (bound_of b.now) }
    ensures exact { result ≡ is_lower (bound_of a.now) (bound_of b.now) }
    ensures sound { IsTrue result → IsNeverGreater (bound_of a.now) (bound_of b.now) }
{
    is_below(a, b)
}

#[cycle(below)]
pub(crate) fn is_below(a: &Bound, b: &Bound) -> bool
    ensures { result ≡ is_lower (bound_of a.now) (bound_of b.now) }
{
    match a {
        Bound::Const(c) => *c == 0 || one_below(a, b),
        Bound::Max(parts) => all_below(parts, b),
        Bound::Var(_) | Bound::Sum(_) | Bound::Prod(_) | Bound::Power(_, _) => one_below(a, b),
    }
}

// Whether each part is below b.
#[cycle(below)]
fn all_below(parts: &[Bound], b: &Bound) -> bool
    ensures { result ≡ list_all (λ p. is_lower p (bound_of b.now)) (bounds_of parts.now) }
{
    for part in parts {
        if !is_below(part, b) {
            return false;
        }
    }
    true
}

// Whether a, which is no maximum, is below b.
#[cycle(below)]
fn one_below(a: &Bound, b: &Bound) -> bool
    requires { IsNoMaximum (bound_of a.now) }
    ensures { result ≡ below_one (λ p q. is_lower p q) (bound_of a.now) (bound_of b.now) }
{
    match b {
        Bound::Max(parts) => any_above(a, parts),
        Bound::Const(_) | Bound::Var(_) | Bound::Sum(_) | Bound::Prod(_) | Bound::Power(_, _) => {
            terms_below(terms_of(a), terms_of(b))
        }
    }
}

// Whether a is below one of the parts.
#[cycle(below)]
pub(crate) fn any_above(a: &Bound, parts: &[Bound]) -> bool
    ensures { result ≡ list_any (λ q. is_lower (bound_of a.now) q) (bounds_of parts.now) }
{
    for part in parts {
        if is_below(a, part) {
            return true;
        }
    }
    false
}

// Whether each of the parts can take one of the others that it is below, in order.
#[cycle(below)]
fn terms_below(parts: &[Bound], others: &[Bound]) -> bool
    ensures { result ≡ match_in_order (term_below (λ p q. is_lower p q)) (bounds_of parts.now) (bounds_of others.now) }
{
    let mut left = parts;
    for other in others {
        left = still_left(Pairing::AsTerms, left, other);
    }
    left.is_empty()
}

// The parts that still look for one to take, after `other` has been offered to the first of them.
#[cycle(below)]
fn still_left<'a>(pairing: Pairing, left: &'a [Bound], other: &Bound) -> &'a [Bound]
    ensures { bounds_of result.now
        ≡ left_after (paired_below pairing (λ p q. is_lower p q)) (bounds_of left.now) (bound_of other.now) }
{
    match left.split_first() {
        Some((first, rest)) => if is_paired(pairing, first, other) {
            rest
        } else {
            left
        },
        None => left,
    }
}

// Whether one bound is below another in their context.
#[cycle(below)]
fn is_paired(pairing: Pairing, part: &Bound, other: &Bound) -> bool
    ensures { result ≡ paired_below pairing (λ p q. is_lower p q) (bound_of part.now) (bound_of other.now) }
{
    match pairing {
        Pairing::AsTerms => is_term_below(part, other),
        Pairing::AsFactors => is_factor_below(part, other),
    }
}

#[cycle(below)]
fn is_term_below(part: &Bound, other: &Bound) -> bool
    ensures { result ≡ term_below (λ p q. is_lower p q) (bound_of part.now) (bound_of other.now) }
{
    let lesser = term_of(part);
    let greater = term_of(other);
    !has(Counted::Constants, lesser.factors)
        && !has(Counted::Constants, greater.factors)
        && lesser.constant <= greater.constant
        && factors_below(lesser.factors, greater.factors)
}

// Whether each factor can be paired with one of the others that it is below, and the remaining ones may remain.
#[cycle(below)]
fn factors_below(factors: &[Bound], others: &[Bound]) -> bool
    ensures { result ≡ takes_fully (factor_below (λ p q. is_lower p q)) (bounds_of factors.now) (bounds_of others.now) }
{
    let mut marks = [false; MARKED];
    let mut left = factors;
    let mut fit = true;
    for other in others {
        let after = still_left(Pairing::AsFactors, left, other);
        if after.len() < left.len() {
            mark(&mut marks, other);
        } else {
            fit = fit && is_power_or_var(other);
        }
        left = after;
    }
    if !left.is_empty() {
        return false;
    }
    if !fit {
        return false;
    }
    inputs_taken(factors, others, &marks)
}

// Whether each variable among the others is the same as a variable that is taken.
#[cycle(below)]
fn inputs_taken(factors: &[Bound], others: &[Bound], marks: &[bool]) -> bool
    requires { IsMarked marks.now (factors_taken (bounds_of factors.now) (bounds_of others.now)) }
    ensures { result
        ≡ list_all (input_among (factors_taken (bounds_of factors.now) (bounds_of others.now))) (bounds_of others.now) }
{
    for other in others {
        if !input_taken(factors, others, marks, other) {
            return false;
        }
    }
    true
}

// Whether a variable is one that is taken: looked up by its mark, or, if its number has no mark, by searching the taken
// factors.
#[cycle(below)]
fn input_taken(factors: &[Bound], others: &[Bound], marks: &[bool], input: &Bound) -> bool
    requires { IsMarked marks.now (factors_taken (bounds_of factors.now) (bounds_of others.now)) }
    ensures { result
        ≡ input_among (factors_taken (bounds_of factors.now) (bounds_of others.now)) (bound_of input.now) }
{
    match input {
        Bound::Var(i) => {
            let index = *i as usize;
            if index < marks.len() {
                marks[index]
            } else {
                is_among_taken(factors, others, input)
            }
        }
        Bound::Const(_) | Bound::Sum(_) | Bound::Prod(_) | Bound::Max(_) | Bound::Power(_, _) =>
            true,
    }
}

// Whether the factors take a variable that is the same as this one.
#[cycle(below)]
fn is_among_taken(factors: &[Bound], others: &[Bound], input: &Bound) -> bool
    ensures { result
        ≡ list_any (is_same_input (bound_of input.now)) (factors_taken (bounds_of factors.now) (bounds_of others.now)) }
{
    let mut left = factors;
    let mut found = false;
    for other in others {
        let after = still_left(Pairing::AsFactors, left, other);
        if after.len() < left.len() {
            found = found || is_same_var(input, other);
        }
        left = after;
    }
    found
}

#[cycle(below)]
fn is_factor_below(factor: &Bound, other: &Bound) -> bool
    ensures { result ≡ factor_below (λ p q. is_lower p q) (bound_of factor.now) (bound_of other.now) }
{
    match factor {
        Bound::Var(i) => match other {
            Bound::Var(j) => *i == *j,
            Bound::Sum(_) | Bound::Max(_) => is_below(factor, other),
            Bound::Const(_) | Bound::Prod(_) | Bound::Power(_, _) => false,
        },
        Bound::Power(base, exponent) => match other {
            Bound::Power(other_base, other_exponent) => *base <= *other_base
                && is_below(exponent, other_exponent),
            Bound::Sum(_) | Bound::Max(_) => is_below(factor, other),
            Bound::Const(_) | Bound::Var(_) | Bound::Prod(_) => false,
        },
        Bound::Sum(_) | Bound::Max(_) => is_below(factor, other),
        Bound::Const(_) | Bound::Prod(_) => match other {
            Bound::Sum(_) | Bound::Max(_) => is_below(factor, other),
            Bound::Const(_) | Bound::Var(_) | Bound::Prod(_) | Bound::Power(_, _) => false,
        },
    }
}
