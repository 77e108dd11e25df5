//! Bounds as sums of products, in which equal products are added.

use poly_terms::{Memory, Poly};
use potential_types::copied_bound;
use signed_bounds::Signed;
use std::alloc::Global;

/// The most products that a bound is multiplied out into.
const PRODUCT_LIMIT: usize = 64;

/// A product of factors with a coefficient.
#[derive(Drop)]
pub(crate) struct Product {
    pub(crate) coefficient: u128,
    pub(crate) factors: Vec<Signed>,
}

/// Copies of bounds.
pub(crate) fn copied_bounds(alloc: Global, bounds: &[Signed]) -> Result<Vec<Signed>, Memory> {
    let mut copies = Vec::new(alloc);
    for bound in bounds {
        copies.push(copied_bound(alloc, bound)?)?;
    }
    Ok(copies)
}

/// A bound as a sum of products, equal ones added; none where there would be too many, or a number would be too large.
#[cycle(products)]
pub(crate) fn products_of_bound(
    alloc: Global,
    bound: &Signed,
) -> Result<Option<Vec<Product>>, Memory> {
    match bound {
        Signed::Const(c) => Ok(Some(products_of_number(alloc, *c)?)),
        Signed::Part(p) => match constant_of(p) {
            Some(c) => Ok(Some(products_of_number(alloc, u128::try_from(c).unwrap_or(0))?)),
            None => Ok(Some(single_product(alloc, bound)?)),
        },
        Signed::Sum(parts) => products_of_sum(alloc, parts),
        Signed::Prod(parts) => products_of_product(alloc, parts),
        Signed::Max(_)
        | Signed::Min(_, _)
        | Signed::Quotient(_, _)
        | Signed::Root(_)
        | Signed::Power(_, _) => Ok(Some(single_product(alloc, bound)?)),
    }
}

// The constant of a polynomial that has no variable.
fn constant_of(p: &Poly) -> Option<i128> {
    match p.terms.as_slice() {
        [] => Some(0),
        [only] if only.vars.is_empty() => Some(only.coef),
        _ => None,
    }
}

// A number as a sum of products.
fn products_of_number(alloc: Global, c: u128) -> Result<Vec<Product>, Memory> {
    let mut products = Vec::new(alloc);
    if c > 0 {
        products.push(Product {
            coefficient: c,
            factors: Vec::new(alloc),
        })?;
    }
    Ok(products)
}

// A bound that isn't multiplied out, as the one factor of a product.
fn single_product(alloc: Global, bound: &Signed) -> Result<Vec<Product>, Memory> {
    let mut factors = Vec::new(alloc);
    factors.push(copied_bound(alloc, bound)?)?;
    let mut products = Vec::new(alloc);
    products.push(Product {
        coefficient: 1,
        factors,
    })?;
    Ok(products)
}

// The products of a sum.
#[cycle(products)]
fn products_of_sum(alloc: Global, parts: &[Signed]) -> Result<Option<Vec<Product>>, Memory> {
    let mut all = Vec::new(alloc);
    for part in parts {
        let Some(products) = products_of_bound(alloc, part)? else {
            return Ok(None);
        };
        if !add_products(&mut all, products)? {
            return Ok(None);
        }
    }
    Ok(Some(all))
}

// The products of a product.
#[cycle(products)]
fn products_of_product(alloc: Global, parts: &[Signed]) -> Result<Option<Vec<Product>>, Memory> {
    let mut all = products_of_number(alloc, 1)?;
    for part in parts {
        let Some(products) = products_of_bound(alloc, part)? else {
            return Ok(None);
        };
        if all.len().saturating_mul(products.len()) > PRODUCT_LIMIT {
            return Ok(None);
        }
        let Some(next) = product_of_sums(alloc, &all, &products)? else {
            return Ok(None);
        };
        all = next;
    }
    Ok(Some(all))
}

// Each product of the one list times each of the other; none where a number would be too large.
fn product_of_sums(
    alloc: Global,
    left: &[Product],
    right: &[Product],
) -> Result<Option<Vec<Product>>, Memory> {
    let mut all = Vec::new(alloc);
    for a in left {
        for b in right {
            let Some(coefficient) = a.coefficient.checked_mul(b.coefficient) else {
                return Ok(None);
            };
            let factors = all_factors(alloc, &a.factors, &b.factors)?;
            if !add_product(
                &mut all,
                Product {
                    coefficient,
                    factors,
                },
            )? {
                return Ok(None);
            }
        }
    }
    Ok(Some(all))
}

// Copies of the factors of two products, those of the first one first.
fn all_factors(
    alloc: Global,
    factors: &[Signed],
    others: &[Signed],
) -> Result<Vec<Signed>, Memory> {
    let mut all = copied_bounds(alloc, factors)?;
    for factor in others {
        all.push(copied_bound(alloc, factor)?)?;
    }
    Ok(all)
}

// Adds products to a list; false where a number would be too large.
fn add_products(all: &mut Vec<Product>, products: Vec<Product>) -> Result<bool, Memory> {
    for product in products {
        if !add_product(all, product)? {
            return Ok(false);
        }
    }
    Ok(true)
}

// Adds a product to a list, to an equal one where there is one; false where a number would be too large.
fn add_product(all: &mut Vec<Product>, product: Product) -> Result<bool, Memory> {
    match all
        .iter()
        .position(|p| have_same_factors(&p.factors, &product.factors))
    {
        Some(index) => Ok(add_coefficient(all, index, product.coefficient)),
        None => {
            all.push(product)?;
            Ok(true)
        }
    }
}

// Adds to the coefficient of the product at an index; false where the sum would be too large.
fn add_coefficient(all: &mut Vec<Product>, index: usize, coefficient: u128) -> bool {
    let Some(product) = all.get_mut(index) else {
        return false;
    };
    match product.coefficient.checked_add(coefficient) {
        Some(sum) => {
            product.coefficient = sum;
            true
        }
        None => false,
    }
}

// Whether two lists have the same factors, in any order.
fn have_same_factors(factors: &[Signed], others: &[Signed]) -> bool {
    factors.len() == others.len()
        && factors
            .iter()
            .all(|f| occurrences(f, factors) == occurrences(f, others))
}

// How often a factor is in a list.
fn occurrences(factor: &Signed, factors: &[Signed]) -> usize {
    let mut count = 0usize;
    for other in factors {
        if other == factor {
            count = count.saturating_add(1);
        }
    }
    count
}
