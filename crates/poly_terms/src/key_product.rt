//! Products of polynomials with packed exponents. A row consists of the products of one monomial with each of a list.
//! If the list is in ascending order of keys, so is the row, so rows can be merged. If a list doesn't ascend, the
//! result is the same but longer.

ghost use Rattle.std.specs.Prelude.{◌≡◌, ◌≤◌, nat_abs, ◌+ℤ◌, ◌++◌, ◌∷◌, drop, map, IfOk, IfSome, OnOk, []};
ghost use Rattle.model.specs.Limits.{coefficient_limit};
ghost use Rattle.poly_terms.specs.Expanding.{product_of};
ghost use Rattle.poly_terms.specs.Keys.{product_at, all_products, IsMergedFrom};
ghost use Rattle.poly_terms.specs.Views.{monomials_of, poly_of};

use crate::Memory;
use crate::key_error::{KeyError, unless_unfit};
use crate::keyed::{Key, Keyed, ONE, is_below, is_same_key, key_of_both};
use crate::limits::{degree, is_large};
use crate::packing::{packed, unpacked_sum};
use crate::poly::{Monomial, Poly};
use crate::table::table_of;
use crate::wide::narrow_product;
use model::MONOMIAL_LIMIT;
use std::alloc::Global;
use std::mem;

/// Up to this degree no digit of a key carries.
const DIGIT_LIMIT: usize = 15;

/// The least number of products for which packing is worthwhile.
const PRODUCT_MINIMUM: usize = 8;

/// The greatest number of monomials with which a further row is merged. If there are more, nearly always too many of
/// them are different in the end.
const ROWS_MAXIMUM: usize = 256;

/// The initial capacity for merged rows: as many monomials as an expanded form may have.
const ROWS_CAPACITY: usize = MONOMIAL_LIMIT;

/// The product, or `None` if it has to be computed monomial by monomial.
pub(crate) fn product_by_keys(alloc: Global, p: &Poly, q: &Poly) -> Result<Option<Poly>, Memory>
    ensures { IfOk result (λ found. IfSome found (λ r. poly_of r ≡ product_of (poly_of p.now) (poly_of q.now))) }
{
    unless_unfit(product_by_table(alloc, &p.terms, &q.terms))
}

// The product, if everything fits.
fn product_by_table(alloc: Global, p: &[Monomial], q: &[Monomial]) -> Result<Poly, KeyError>
    ensures { IfOk result (λ r. poly_of r ≡ product_of (monomials_of p.now) (monomials_of q.now)) }
{
    let factors = degree(p).saturating_add(degree(q));
    if p.len().saturating_mul(q.len()) < PRODUCT_MINIMUM || factors > DIGIT_LIMIT {
        return Err(KeyError::Unfit);
    }
    let table = table_of(alloc, p, q)?;
    let left = packed(alloc, &table, p)?;
    let right = packed(alloc, &table, q)?;
    let whole = product_of_lists(alloc, &left, &right)?;
    unpacked_sum(alloc, &table, &whole)
}

/// The products of two lists, merged, unless an intermediate result is too long. The shorter list gives the rows.
pub(crate) fn product_of_lists(
    alloc: Global,
    left: &[Keyed],
    right: &[Keyed],
) -> Result<Vec<Keyed>, KeyError>
    ensures { IfOk result (λ es. IsMergedFrom es.items (all_products left.now right.now)) }
{
    if left.len() < right.len() {
        rows_merged(alloc, left, right)
    } else {
        rows_merged(alloc, right, left)
    }
}

// The rows of the products of two lists, merged. Two buffers take turns, so that no buffer is allocated for a row.
fn rows_merged(alloc: Global, left: &[Keyed], right: &[Keyed]) -> Result<Vec<Keyed>, KeyError>
    ensures { IfOk result (λ es. IsMergedFrom es.items (all_products left.now right.now)) }
{
    let mut so_far = Vec::with_capacity(alloc, ROWS_CAPACITY)?;
    let mut merged = Vec::with_capacity(alloc, ROWS_CAPACITY)?;
    for e in left {
        if so_far.len() > ROWS_MAXIMUM {
            return Err(KeyError::Unfit);
        }
        merged.clear();
        merge_row(&mut merged, &so_far, *e, right)?;
        mem::swap(&mut so_far, &mut merged);
    }
    Ok(so_far)
}

/// The same monomials in the order of their keys.
pub(crate) fn in_order(alloc: Global, es: &[Keyed]) -> Result<Vec<Keyed>, KeyError>
    ensures { IfOk result (λ ks. IsMergedFrom ks.items es.now) }
{
    rows_merged(alloc, es, &[ONE])
}

/// The merged rows with one more: the products of a monomial with each of a list.
pub(crate) fn with_row(
    alloc: Global,
    so_far: &[Keyed],
    e: Keyed,
    right: &[Keyed],
) -> Result<Vec<Keyed>, KeyError>
    ensures { IfOk result (λ es. IsMergedFrom es.items (so_far.now ++ map (product_at e) right.now)) }
{
    let mut merged = Vec::with_capacity(alloc, so_far.len().saturating_add(right.len()))?;
    merge_row(&mut merged, so_far, e, right)?;
    Ok(merged)
}

// Writes the merged rows so far, merged with one more row, into an empty list.
fn merge_row(
    merged: &mut Vec<Keyed>,
    so_far: &[Keyed],
    e: Keyed,
    right: &[Keyed],
) -> Result<(), KeyError>
    requires { merged.old.items ≡ [] }
    ensures { OnOk result (IsMergedFrom merged.new.items (so_far.now ++ map (product_at e) right.now)) }
{
    if is_large(e.coef) {
        return Err(KeyError::Unfit);
    }
    let mut i = 0;
    for f in right {
        let product = multiplied(e, *f)?;
        i = put_at_place(merged, so_far, i, product)?;
    }
    copy_rest(merged, so_far, i)
}

// The product of two packed monomials, if no exponent is too high and no coefficient over 2^63-1. The product's
// coefficient may exceed 64 bits, since it may cancel with others.
fn multiplied(e: Keyed, f: Keyed) -> Result<Keyed, KeyError>
    requires { nat_abs e.coef ≤ coefficient_limit }
    ensures { IfOk result (λ g. g ≡ product_at e f) }
{
    let key = key_of_both(e.key, f.key)?;
    if is_large(f.coef) {
        return Err(KeyError::Unfit);
    }
    let coef = narrow_product(e.coef, f.coef);
    Ok(Keyed { key, coef })
}

// Inserts a product at its place in order, from i on; returns where to continue. For most products of a row the place
// is i.
fn put_at_place(
    merged: &mut Vec<Keyed>,
    so_far: &[Keyed],
    i: usize,
    product: Keyed,
) -> Result<usize, KeyError>
    ensures { IfOk result (λ j. IsMergedFrom (merged.new.items ++ drop j so_far.now)
        (product ∷ (merged.old.items ++ drop i so_far.now))) }
{
    if i < so_far.len() && is_same_key(so_far[i].key, product.key) {
        put_sum(merged, so_far[i], product)?;
        Ok(i + 1)
    } else {
        let from = copy_below(merged, so_far, i, product.key)?;
        put(merged, so_far, from, product)
    }
}

// Copies from i on until a key isn't below this one; returns where it stopped.
fn copy_below(
    merged: &mut Vec<Keyed>,
    so_far: &[Keyed],
    i: usize,
    key: Key,
) -> Result<usize, KeyError>
    ensures { IfOk result (λ j. merged.new.items ++ drop j so_far.now ≡ merged.old.items ++ drop i so_far.now) }
{
    let mut j = i;
    while j < so_far.len() && is_below(so_far[j].key, key) {
        merged.push(so_far[j])?;
        j += 1;
    }
    Ok(j)
}

// Copies all from i on.
fn copy_rest(merged: &mut Vec<Keyed>, so_far: &[Keyed], i: usize) -> Result<(), KeyError>
    ensures { OnOk result (merged.new.items ≡ merged.old.items ++ drop i so_far.now) }
{
    for j in i..so_far.len() {
        merged.push(so_far[j])?;
    }
    Ok(())
}

// Appends a product to the merged monomials, added to the monomial at i if that has the same key; returns where to
// continue.
fn put(
    merged: &mut Vec<Keyed>,
    so_far: &[Keyed],
    i: usize,
    product: Keyed,
) -> Result<usize, KeyError>
    ensures { IfOk result (λ j. IsMergedFrom (merged.new.items ++ drop j so_far.now)
        (product ∷ (merged.old.items ++ drop i so_far.now))) }
{
    if i < so_far.len() && is_same_key(so_far[i].key, product.key) {
        put_sum(merged, so_far[i], product)?;
        Ok(i + 1)
    } else {
        merged.push(product)?;
        Ok(i)
    }
}

// Appends the sum of two monomials with the same key, unless it is 0.
fn put_sum(merged: &mut Vec<Keyed>, e: Keyed, f: Keyed) -> Result<(), KeyError>
    requires { e.key ≡ f.key }
    ensures { OnOk result (IsMergedFrom merged.new.items (f ∷ (merged.old.items ++ e ∷ []))) }
{
    let sum = combined(e, f)?;
    if sum.coef != 0 {
        merged.push(sum)?;
    }
    Ok(())
}

// The sum of two monomials with the same key, if it is in range.
fn combined(e: Keyed, f: Keyed) -> Result<Keyed, KeyError>
    ensures key { IfOk result (λ sum. sum.key ≡ f.key) }
    ensures coefficient { IfOk result (λ sum. sum.coef ≡ e.coef +ℤ f.coef) }
{
    match e.coef.checked_add(f.coef) {
        None => Err(KeyError::Unfit),
        Some(coef) => Ok(Keyed { key: f.key, coef }),
    }
}
