//! Packs and unpacks monomials.

ghost use Rattle.std.specs.Prelude.{◌≡◌, ◌≤◌, ◌^◌, ◌++◌, nat_abs, [], replicate, IfOk, OnOk};
ghost use Rattle.poly_terms.specs.Expanding.{sum_of};
ghost use Rattle.poly_terms.specs.Keys.{number_of, no_factors, factors_at, monomial_at, monomials_at};
ghost use Rattle.poly_terms.specs.Views.{monomial_of, monomials_of, poly_of};

use crate::Memory;
use crate::key_error::KeyError;
use crate::keyed::{
    Key, Keyed, NO_FACTORS, is_same_key, key_of_both, last_digit, other_digits, with_zero_digit,
};
use crate::limits::is_large;
use crate::nonzero::nonzero;
use crate::poly::{Monomial, Poly};
use crate::sum::add;
use std::alloc::Global;

/// The greatest number of packed monomials that are unpacked.
const UNPACKED_LIMIT: usize = 4096;

/// The monomials packed, if each fits.
pub(crate) fn packed(
    alloc: Global,
    table: &[u32],
    terms: &[Monomial],
) -> Result<Vec<Keyed>, KeyError>
    ensures { IfOk result (λ es. monomials_at table.now es.items ≡ monomials_of terms.now) }
{
    let mut es = Vec::with_capacity(alloc, terms.len())?;
    for m in terms {
        let e = packed_monomial(alloc, table, m)?;
        es.push(e)?;
    }
    Ok(es)
}

/// A constant packed, if it fits.
pub(crate) fn packed_constant(z: i128) -> Result<Keyed, KeyError>
    ensures key { IfOk result (λ e. e.key ≡ no_factors) }
    ensures coefficient { IfOk result (λ e. e.coef ≡ z) }
{
    if is_large(z) {
        return Err(KeyError::Unfit);
    }
    Ok(Keyed {
        key: NO_FACTORS,
        coef: z,
    })
}

/// A monomial packed. Whether it fits is checked when it is unpacked.
pub(crate) fn packed_monomial(alloc: Global, table: &[u32], m: &Monomial) -> Result<Keyed, KeyError>
    ensures { IfOk result (λ e. monomial_at table.now e ≡ monomial_of m.now) }
{
    let key = key_of(table, &m.vars)?;
    let vars = unpacked(alloc, table, key)?;
    if vars == m.vars {
        Ok(Keyed { key, coef: m.coef })
    } else {
        Err(KeyError::Unfit)
    }
}

// The key of these variables.
fn key_of(table: &[u32], vars: &[u32]) -> Result<Key, KeyError> {
    let mut key = NO_FACTORS;
    for v in vars {
        key = key_of_both(key, unit_of(table, *v))?;
    }
    Ok(key)
}

// The amount that one factor of a variable adds to a key.
fn unit_of(table: &[u32], v: u32) -> Key {
    let mut unit = Key { high: 0, low: 1 };
    for w in table {
        if *w == v {
            return unit;
        }
        unit = with_zero_digit(unit);
    }
    NO_FACTORS
}

// The variables of a key. The loop ends once only zeros are left.
fn unpacked(alloc: Global, table: &[u32], key: Key) -> Result<Vec<u32>, Memory>
    ensures { IfOk result (λ vars. vars.items ≡ factors_at table.now (number_of key)) }
{
    let mut vars = Vec::with_capacity(alloc, 8)?;
    let mut rest = key;
    for v in table {
        if is_same_key(rest, NO_FACTORS) {
            break;
        }
        push_copies(&mut vars, *v, last_digit(rest))?;
        rest = other_digits(rest);
    }
    Ok(vars)
}

// Appends a variable this many times.
fn push_copies(vars: &mut Vec<u32>, v: u32, count: u32) -> Result<(), Memory>
    ensures { OnOk result (vars.new.items ≡ vars.old.items ++ replicate count v) }
{
    for _ in 0..count {
        vars.push(v)?;
    }
    Ok(())
}

/// The polynomial of packed monomials, which needn't be distinct.
pub(crate) fn unpacked_sum(alloc: Global, table: &[u32], es: &[Keyed]) -> Result<Poly, KeyError>
    ensures { IfOk result (λ p. poly_of p ≡ sum_of [] (monomials_at table.now es.now)) }
{
    if es.len() > UNPACKED_LIMIT {
        return Err(KeyError::Unfit);
    }
    let mut terms = Vec::with_capacity(alloc, es.len())?;
    for e in es {
        let m = unpacked_monomial(alloc, table, *e)?;
        add(&mut terms, m)?;
    }
    Ok(Poly {
        terms: nonzero(terms),
    })
}

// A monomial unpacked, if its coefficient isn't over 2^63-1.
fn unpacked_monomial(alloc: Global, table: &[u32], e: Keyed) -> Result<Monomial, KeyError>
    ensures value { IfOk result (λ m. monomial_of m ≡ monomial_at table.now e) }
    ensures small { IfOk result (λ m. nat_abs m.coef ≤ 2 ^ 63) }
{
    if is_large(e.coef) {
        return Err(KeyError::Unfit);
    }
    let vars = unpacked(alloc, table, e.key)?;
    Ok(Monomial { coef: e.coef, vars })
}
