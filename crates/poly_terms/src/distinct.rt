//! Checks that no coefficient of a sum of packed monomials is over 2^63-1, by a bound on all coefficients together or
//! one by one.

ghost use Rattle.std.specs.Prelude.{◌≡◌, ◌<◌, ◌≤◌, [], true, false};
ghost use Rattle.model.specs.Limits.{coefficient_limit};
ghost use Rattle.poly_terms.specs.Expanding.{sum_of};
ghost use Rattle.poly_terms.specs.Faults.{has_large};
ghost use Rattle.poly_terms.specs.Keys.{ascend_from, monomials_at, norm_at, number_of};
ghost use Rattle.poly_terms.specs.Distinct.{number, is_within_table, HasSmallCoefficient, RiseFrom, AreDistinct};

use crate::keyed::{Key, Keyed, NO_FACTORS, is_below, is_same_key, other_digits};
use model::COEFFICIENT_LIMIT;

/// Whether no coefficient of the sum is over 2^63-1 in absolute value. It is true if all absolute values together
/// aren't, or if each isn't and the monomials are distinct, because the keys ascend and the last one fits the table.
pub(crate) fn is_narrow(table: &[u32], es: &[Keyed]) -> bool
    requires { ascend_from 0 table.now ≡ true }
    ensures { result ≡ true → has_large (sum_of [] (monomials_at table.now es.now)) ≡ false }
{
    has_small_norm(es) || are_distinct(table, es)
}

// Whether the absolute values of the coefficients add up to at most 2^63-1.
fn has_small_norm(es: &[Keyed]) -> bool
    ensures { result ≡ true → norm_at es.now ≤ coefficient_limit }
{
    let mut left = COEFFICIENT_LIMIT as u128;
    for e in es {
        let size = e.coef.unsigned_abs();
        if size > left {
            return false;
        }
        left -= size;
    }
    true
}

// Whether the keys ascend, the last one fits the table, and no coefficient is over 2^63-1 in absolute value.
fn are_distinct(table: &[u32], es: &[Keyed]) -> bool
    ensures { result ≡ true → AreDistinct table.now es.now }
{
    match es.split_first() {
        None => true,
        Some((first, others)) => has_small_coefficient(*first) && rise_from(table, *first, others),
    }
}

// The same test for the monomials after this one, whose own coefficient isn't tested.
fn rise_from(table: &[u32], first: Keyed, es: &[Keyed]) -> bool
    ensures { result ≡ true → RiseFrom table.now first es.now }
{
    let mut before = first;
    for e in es {
        if !is_next(before, *e) {
            return false;
        }
        before = *e;
    }
    is_in_table(table, before.key)
}

// Whether a packed monomial has a greater key than the one before, and a small coefficient.
fn is_next(before: Keyed, e: Keyed) -> bool
    ensures above { result ≡ true → number before < number e }
    ensures small { result ≡ true → HasSmallCoefficient e }
{
    is_below(before.key, e.key) && has_small_coefficient(e)
}

// Whether the coefficient is at most 2^63-1 in absolute value.
fn has_small_coefficient(e: Keyed) -> bool
    ensures { result ≡ true → HasSmallCoefficient e }
{
    e.coef.unsigned_abs() <= COEFFICIENT_LIMIT as u128
}

// Whether a key has no digit beyond those of the table's variables.
fn is_in_table(table: &[u32], key: Key) -> bool
    ensures { result ≡ true → is_within_table table.now (number_of key) ≡ true }
{
    let mut rest = key;
    for _ in table {
        rest = other_digits(rest);
    }
    is_same_key(rest, NO_FACTORS)
}
