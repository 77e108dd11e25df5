//! Bounds as sums of products.

ghost use Rattle.std.specs.Prelude.{◌≡◌, ◌*◌, ◌≤◌, ◌++◌, [], ◌∷◌, map, IfOk, OnOk};
ghost use Rattle.poly_terms.specs.Views.{poly_of};
ghost use Rattle.signed_bounds.specs.Bounds.{PositivePart, ProductOf};
ghost use Rattle.signed_bounds.specs.Views.{signed_of, signeds_of, parts_of};
ghost use Rattle.signed_bounds.specs.Limits.{constant_limit};
ghost use Rattle.signed_bounds.specs.Products.{joined as joined_of, multiplied as multiplied_of, times_sum, number_sum};
ghost use Rattle.signed_bounds.specs.Products.{number_sum_of_sum, number_sum_of_product, products_of as products_in};
ghost use Rattle.signed_bounds.specs.Products.{products_of_sum as products_in_sum, scaled as scaled_of};
ghost use Rattle.signed_bounds.specs.Products.{part_product as product_of_part};
ghost use Rattle.signed_within.specs.Views.{product_of, products_at};

use crate::constants::constant_part;
use crate::product::{Product, factor, joined, number, scaled};
use poly_terms::{Memory, Poly};
use signed_bounds::Signed;
use std::alloc::Global;

/// A bound as a sum of products: sums and products are multiplied out, constants and positive parts of constants are
/// numbers, and everything else is a factor.
///
/// # Errors
///
/// `Memory` where an allocation fails.
#[cycle(products)]
pub fn products_of<'a>(alloc: Global, bound: &'a Signed) -> Result<Vec<Product<'a>>, Memory>
    requires { number_sum (signed_of bound.now) ≤ constant_limit }
    ensures { IfOk result (λ ps. products_at ps.items ≡ products_in (signed_of bound.now)) }
{
    match bound {
        Signed::Const(c) => one_product(alloc, number(alloc, *c)),
        Signed::Part(p) => one_product(alloc, part_product(alloc, bound, p)?),
        Signed::Sum(parts) => products_of_sum(alloc, parts),
        Signed::Prod(parts) => products_of_product(alloc, parts),
        Signed::Max(_)
        | Signed::Min(_, _)
        | Signed::Quotient(_, _)
        | Signed::Root(_)
        | Signed::Power(_, _) => one_product(alloc, factor(alloc, bound)?),
    }
}

// The positive part of a polynomial as a product: a number where the polynomial is written as one, else a factor.
fn part_product<'a>(alloc: Global, part: &'a Signed, p: &Poly) -> Result<Product<'a>, Memory>
    requires { signed_of part.now ≡ PositivePart (poly_of p.now) }
    ensures { IfOk result (λ q. product_of q ≡ product_of_part (poly_of p.now)) }
{
    match constant_part(p) {
        Some(n) => Ok(number(alloc, n)),
        None => factor(alloc, part),
    }
}

// A list of one product.
fn one_product<'a>(alloc: Global, only: Product<'a>) -> Result<Vec<Product<'a>>, Memory>
    ensures { IfOk result (λ ps. products_at ps.items ≡ product_of only.entry ∷ []) }
{
    let mut products = Vec::new(alloc);
    products.push(only)?;
    Ok(products)
}

// The products of all parts of a sum.
#[cycle(products)]
fn products_of_sum<'a>(alloc: Global, parts: &'a [Signed]) -> Result<Vec<Product<'a>>, Memory>
    requires { number_sum_of_sum (parts_of (signeds_of parts.now)) ≤ constant_limit }
    ensures { IfOk result (λ ps. products_at ps.items ≡ products_in_sum (parts_of (signeds_of parts.now))) }
{
    let mut products = Vec::new(alloc);
    for part in parts {
        let mut more = products_of(alloc, part)?;
        products.append(&mut more)?;
    }
    Ok(products)
}

// The products that the factors of a product are multiplied out into.
#[cycle(products)]
fn products_of_product<'a>(alloc: Global, parts: &'a [Signed]) -> Result<Vec<Product<'a>>, Memory>
    requires { number_sum_of_product (parts_of (signeds_of parts.now)) ≤ constant_limit }
    ensures { IfOk result (λ ps. products_at ps.items
        ≡ products_in (ProductOf (parts_of (signeds_of parts.now)))) }
{
    let mut products = one_product(alloc, number(alloc, 1))?;
    for part in parts {
        let factors = products_of(alloc, part)?;
        let longer = multiplied(alloc, &products, &factors)?;
        products = longer;
    }
    Ok(products)
}

// The products of each product of the first list with each of the second.
fn multiplied<'a>(
    alloc: Global,
    ps: &[Product<'a>],
    qs: &[Product<'a>],
) -> Result<Vec<Product<'a>>, Memory>
    requires { times_sum (products_at ps.now) * times_sum (products_at qs.now) ≤ constant_limit }
    ensures { IfOk result (λ rs. products_at rs.items ≡ multiplied_of (products_at ps.now) (products_at qs.now)) }
{
    let mut products = Vec::new(alloc);
    for p in ps {
        push_joined(alloc, &mut products, p, qs)?;
    }
    Ok(products)
}

// Appends the products of a product with each of a list.
fn push_joined<'a>(
    alloc: Global,
    products: &mut Vec<Product<'a>>,
    p: &Product<'a>,
    qs: &[Product<'a>],
) -> Result<(), Memory>
    requires { p.now.times * times_sum (products_at qs.now) ≤ constant_limit }
    ensures { OnOk result (products_at products.new.items
        ≡ products_at products.old.items ++ map (joined_of (product_of p.now)) (products_at qs.now)) }
{
    for q in qs {
        products.push(joined(alloc, p, q)?)?;
    }
    Ok(())
}

/// Appends the products, each `n` times as often.
///
/// # Errors
///
/// `Memory` where an allocation fails.
pub fn push_scaled<'a>(
    alloc: Global,
    products: &mut Vec<Product<'a>>,
    n: u128,
    qs: &[Product<'a>],
) -> Result<(), Memory>
    requires { n * times_sum (products_at qs.now) ≤ constant_limit }
    ensures { OnOk result (products_at products.new.items
        ≡ products_at products.old.items ++ scaled_of n (products_at qs.now)) }
{
    for q in qs {
        products.push(scaled(alloc, n, q)?)?;
    }
    Ok(())
}
