//! Products of bounds.

ghost use Rattle.std.specs.Prelude.{◌≡◌, ◌+◌, ◌*◌, ◌-◌, ◌^◌, ◌≤◌, min, IfOk};
ghost use Rattle.signed_bounds.specs.Views.{signed_of};
ghost use Rattle.signed_bounds.specs.Limits.{constant_limit, comparison_limit};
ghost use Rattle.signed_bounds.specs.Products.{number as number_of, factor as factor_of, joined as joined_of};
ghost use Rattle.signed_bounds.specs.Products.{factor_nodes as nodes_of, factor_total as total_of};
ghost use Rattle.signed_bounds.specs.Products.{is_comparable as are_comparable};
ghost use Rattle.signed_within.specs.Views.{signed_at, product_of, products_at};
ghost use Rattle.signed_within.specs.Numerators.{IsNumerator};

use crate::whole::single;
use poly_terms::Memory;
use signed_bounds::{COMPARISON_LIMIT, Signed};
use std::alloc::Global;

/// A product of bounds, taken a number of times.
#[derive(Drop)]
pub struct Product<'a> {
    pub times: u128,
    pub factors: Vec<&'a Signed>,
}

// A number as a product without factors.
pub(crate) fn number<'a>(alloc: Global, n: u128) -> Product<'a>
    ensures { product_of result ≡ number_of n }
{
    Product {
        times: n,
        factors: Vec::new(alloc),
    }
}

// A bound as a product of one factor.
pub(crate) fn factor<'a>(alloc: Global, bound: &'a Signed) -> Result<Product<'a>, Memory>
    ensures { IfOk result (λ p. product_of p ≡ factor_of (signed_of bound.now)) }
{
    let mut factors = Vec::new(alloc);
    factors.push(bound)?;
    Ok(Product { times: 1, factors })
}

// The product of two products.
pub(crate) fn joined<'a>(
    alloc: Global,
    p: &Product<'a>,
    q: &Product<'a>,
) -> Result<Product<'a>, Memory>
    requires { p.now.times * q.now.times ≤ constant_limit }
    ensures { IfOk result (λ r. product_of r ≡ joined_of (product_of p.now) (product_of q.now)) }
{
    let mut factors = Vec::new(alloc);
    factors.extend_from_slice(&p.factors)?;
    factors.extend_from_slice(&q.factors)?;
    Ok(Product {
        times: p.times * q.times,
        factors,
    })
}

// A product, `n` times as often.
pub(crate) fn scaled<'a>(alloc: Global, n: u128, q: &Product<'a>) -> Result<Product<'a>, Memory>
    requires { n * q.now.times ≤ constant_limit }
    ensures times { IfOk result (λ r. r.times ≡ n * q.now.times) }
    ensures factors { IfOk result (λ r. r.factors.items ≡ q.now.factors.items) }
{
    let mut factors = Vec::new(alloc);
    factors.extend_from_slice(&q.factors)?;
    Ok(Product {
        times: n * q.times,
        factors,
    })
}

// A product taken once less, `n` times as often.
pub(crate) fn scaled_once_less<'a>(
    alloc: Global,
    n: u128,
    q: &Product<'a>,
) -> Result<Product<'a>, Memory>
    requires { n * q.now.times ≤ constant_limit }
    ensures times { IfOk result (λ r. r.times ≡ n * (q.now.times - 1)) }
    ensures factors { IfOk result (λ r. r.factors.items ≡ q.now.factors.items) }
{
    let mut factors = Vec::new(alloc);
    factors.extend_from_slice(&q.factors)?;
    Ok(Product {
        times: n * q.times.saturating_sub(1),
        factors,
    })
}

// The numerator of a product that is just a quotient by `den`, and occurs at least once.
pub(crate) fn numerator<'a>(den: u128, q: &Product<'a>) -> Option<&'a Signed>
    ensures { IsNumerator den (product_of q.now) result }
{
    if q.times == 0 {
        return None;
    }
    match single(&q.factors)? {
        Signed::Quotient(part, divisor) if *divisor == den => Some(part),
        _ => None,
    }
}

/// Whether two sums of products are compared: their sizes, 1 for each product and for each node of its factors,
/// multiplied are at most `COMPARISON_LIMIT`.
pub(crate) fn is_comparable(ps: &[Product], qs: &[Product]) -> bool
    ensures { result ≡ are_comparable (products_at ps.now) (products_at qs.now) }
{
    factor_total(ps).saturating_mul(factor_total(qs)) <= COMPARISON_LIMIT
}

// The size of a sum of products, or `COMPARISON_LIMIT` + 1 if it is greater. It stops at the product with which the
// size passes that limit.
fn factor_total(products: &[Product]) -> u64
    ensures { result ≡ min (total_of (products_at products.now)) (comparison_limit + 1) }
{
    let mut total = 0u64;
    for product in products {
        total = total.saturating_add(product_size(product));
        if total > COMPARISON_LIMIT {
            return COMPARISON_LIMIT + 1;
        }
    }
    total
}

// 1 and the number of nodes of the factors, or the maximum number of its type where that is greater.
fn product_size(product: &Product) -> u64
    ensures { result ≡ min (1 + nodes_of (product_of product.now).factors) (2 ^ 64 - 1) }
{
    factor_nodes(&product.factors).saturating_add(1)
}

// The number of nodes of all factors, or the maximum number of its type where there are more.
fn factor_nodes(factors: &[&Signed]) -> u64
    ensures { result ≡ min (nodes_of (signed_at factors.now)) (2 ^ 64 - 1) }
{
    let mut nodes = 0u64;
    for i in 0..factors.len() {
        nodes = nodes.saturating_add(factors[i].node_count());
    }
    nodes
}
