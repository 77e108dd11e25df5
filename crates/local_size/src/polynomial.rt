//! Checks whether the update at a place is a polynomial that bounds the new value by itself.

ghost use Rattle.std.specs.Prelude.{◌≡◌, ◌≤◌, map, nat_lt};
ghost use Rattle.std.specs.List.{list_all};
ghost use Rattle.guard_prep.specs.Views.{prepared_of};
ghost use Rattle.poly_terms.specs.Views.{monomials_of};
ghost use Rattle.local_size.specs.Places.{is_nonlinear_at, is_of_left, is_polynomial_at, expanded_at};

use guard_prep::RuleRows;
use poly_terms::Monomial;

/// Whether the update at a place has degree 2 or more and contains only left variables.
pub(crate) fn is_polynomial(prepared_rule: &RuleRows, place: u32) -> bool
    requires { 1 ≤ place }
    ensures { result ≡ is_polynomial_at (prepared_of prepared_rule.now) place }
{
    if !is_nonlinear(prepared_rule, place) {
        return false;
    }
    reads_left_alone(prepared_rule, place)
}

/// Whether the update at a place has degree 2 or more.
pub(crate) fn is_nonlinear(prepared_rule: &RuleRows, place: u32) -> bool
    requires { 1 ≤ place }
    ensures { result ≡ is_nonlinear_at (prepared_of prepared_rule.now) place }
{
    match prepared_rule.nonlinear.get(place as usize - 1) {
        Some(is_nonlinear) => *is_nonlinear,
        None => false,
    }
}

// Whether the update at a place contains only left variables.
fn reads_left_alone(prepared_rule: &RuleRows, place: u32) -> bool
    requires { 1 ≤ place }
    ensures { result ≡ is_of_left prepared_rule.now.left (expanded_at (prepared_of prepared_rule.now) place) }
{
    match prepared_rule.polys.get(place as usize - 1) {
        Some(update) => are_of_left(&update.terms, prepared_rule.left),
        None => true,
    }
}

// Whether monomials contain only left variables.
fn are_of_left(monomials: &[Monomial], left: u32) -> bool
    ensures { result ≡ is_of_left left (monomials_of monomials.now) }
{
    for monomial in monomials {
        if !are_below(&monomial.vars, left) {
            return false;
        }
    }
    true
}

// Whether variables are left ones.
fn are_below(variables: &[u32], left: u32) -> bool
    ensures { result ≡ list_all (λ v. nat_lt v left) variables.now }
{
    for variable in variables {
        if *variable >= left {
            return false;
        }
    }
    true
}
