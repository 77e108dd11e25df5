//! Sums of ordered polynomials, by merging in linear time.

ghost use Rattle.std.specs.Prelude.{◌≡◌, ◌+◌, ◌+ℤ◌, ◌<◌, ◌≤◌, [], ◌∷◌, length, nat_abs, IfOk, IfSome, MatchOption};
ghost use Rattle.model.specs.Limits.{coefficient_limit};
ghost use Rattle.poly_terms.specs.Expanding.{all_added, sum_of};
ghost use Rattle.poly_terms.specs.Merging.{first_monomial_order, CanMerge};
ghost use Rattle.poly_terms.specs.Views.{monomial_of, monomials_of, poly_of};

use crate::Memory;
use crate::nonzero::push_if_nonzero;
use crate::poly::{Monomial, Poly};
use std::alloc::Global;
use std::cmp::Ordering;
use std::collections::VecDeque;

/// The sum.
pub(crate) fn merged(alloc: Global, p: Poly, q: Poly) -> Result<Poly, Memory>
    requires { CanMerge (poly_of p) (poly_of q) }
    ensures { IfOk result (λ whole. poly_of whole ≡ sum_of (poly_of p) (poly_of q)) }
{
    let mut left = VecDeque::from(p.terms);
    let mut right = VecDeque::from(q.terms);
    let mut terms = Vec::new(alloc);
    while let Some(m) = next_term(&mut left, &mut right) {
        push_if_nonzero(&mut terms, m)?;
    }
    Ok(Poly { terms })
}

// Removes the first monomial of the sum of the remaining ones, and returns it.
fn next_term(left: &mut VecDeque<Monomial>, right: &mut VecDeque<Monomial>) -> Option<Monomial>
    requires { CanMerge (monomials_of left.old.items) (monomials_of right.old.items) }
    ensures first { MatchOption result
        (all_added (monomials_of left.old.items) (monomials_of right.old.items) ≡ [])
        (λ m. all_added (monomials_of left.old.items) (monomials_of right.old.items)
        ≡ monomial_of m ∷ all_added (monomials_of left.new.items) (monomials_of right.new.items)) }
    ensures ready { CanMerge (monomials_of left.new.items) (monomials_of right.new.items) }
    ensures fewer { IfSome result (λ m.
        length left.new.items + length right.new.items < length left.old.items + length right.old.items) }
{
    match order_of_first(left, right) {
        Ordering::Less => left.pop_front(),
        Ordering::Greater => right.pop_front(),
        Ordering::Equal => {
            let m = left.pop_front()?;
            let n = right.pop_front()?;
            Some(combined(m, n))
        }
    }
}

// The order of the first monomials by their variables; an empty list counts as greater.
fn order_of_first(left: &VecDeque<Monomial>, right: &VecDeque<Monomial>) -> Ordering
    ensures { result ≡ first_monomial_order (monomials_of left.now.items) (monomials_of right.now.items) }
{
    match left.front() {
        None => Ordering::Greater,
        Some(m) => match right.front() {
            None => Ordering::Less,
            Some(n) => m.vars.cmp(&n.vars),
        },
    }
}

// The sum of two monomials with the same variables.
fn combined(m: Monomial, n: Monomial) -> Monomial
    requires left { nat_abs m.coef ≤ coefficient_limit }
    requires right { nat_abs n.coef ≤ coefficient_limit }
    ensures coefficient { result.coef ≡ m.coef +ℤ n.coef }
    ensures variables { result.vars ≡ m.vars }
{
    Monomial {
        coef: m.coef + n.coef,
        vars: m.vars,
    }
}
