//! Simpler forms of bounds, and quotients that are taken apart.

use crate::products::{Product, copied_bounds, products_of_bound};
use poly_terms::{Memory, Poly};
use potential_types::{copied_bound, copied_poly};
use signed_bounds::Signed;
use std::alloc::Global;

/// A bound with equal terms added and products multiplied out; the bound itself where that would be too many products, or
/// numbers beyond 128 bits.
///
/// # Errors
///
/// `Memory` where an allocation fails.
pub fn simplified(alloc: Global, bound: &Signed) -> Result<Signed, Memory> {
    let Some(products) = products_of_bound(alloc, bound)? else {
        return copied_bound(alloc, bound);
    };
    match sum_of(alloc, products)? {
        Some(sum) => Ok(sum),
        None => copied_bound(alloc, bound),
    }
}

/// A bound divided by a number, simplified: what the number divides is taken out of the quotient.
///
/// # Errors
///
/// `Memory` where an allocation fails.
pub fn quotient(alloc: Global, bound: &Signed, den: u128) -> Result<Signed, Memory> {
    let Some(products) = products_of_bound(alloc, bound)? else {
        return undivided_quotient(alloc, bound, den);
    };
    let mut outside = Vec::new(alloc);
    let mut inside = Vec::new(alloc);
    for product in products {
        divide_product(alloc, product, den.max(1), (&mut outside, &mut inside))?;
    }
    if inside.iter().any(|p| !p.factors.is_empty()) {
        let Some(rest) = sum_of(alloc, inside)? else {
            return undivided_quotient(alloc, bound, den);
        };
        let whole = Box::new(alloc, rest)?;
        outside.push(Product {
            coefficient: 1,
            factors: vec![in alloc; Signed::Quotient(whole, den)]?,
        })?;
    }
    match sum_of(alloc, outside)? {
        Some(sum) => Ok(sum),
        None => undivided_quotient(alloc, bound, den),
    }
}

// A bound divided by a number, without simplifying.
fn undivided_quotient(alloc: Global, bound: &Signed, den: u128) -> Result<Signed, Memory> {
    let whole = Box::new(alloc, copied_bound(alloc, bound)?)?;
    Ok(Signed::Quotient(whole, den))
}

// Divides a product by a number: what the number divides comes outside the quotient, and the rest stays inside.
fn divide_product(
    alloc: Global,
    product: Product,
    den: u128,
    lists: (&mut Vec<Product>, &mut Vec<Product>),
) -> Result<(), Memory> {
    let (outside, inside) = lists;
    let Product {
        coefficient,
        factors,
    } = product;
    let (whole, rest) = division(coefficient, den);
    if rest == 0 || factors.is_empty() {
        if whole > 0 {
            outside.push(Product {
                coefficient: whole,
                factors: copied_bounds(alloc, &factors)?,
            })?;
        }
        if rest > 0 {
            inside.push(Product {
                coefficient: rest,
                factors,
            })?;
        }
        return Ok(());
    }
    match divided_part(alloc, &factors, den)? {
        Some(part) => outside.push(Product {
            coefficient,
            factors: vec![in alloc; part]?,
        })?,
        None => inside.push(Product {
            coefficient,
            factors,
        })?,
    }
    Ok(())
}

// The quotient and the rest of numbers; nothing is divided by 0.
fn division(coefficient: u128, den: u128) -> (u128, u128) {
    match (coefficient.checked_div(den), coefficient.checked_rem(den)) {
        (Some(whole), Some(rest)) => (whole, rest),
        _ => (0, coefficient),
    }
}

// The only factor divided, where it is the part of a polynomial each coefficient of which the number divides.
fn divided_part(alloc: Global, factors: &[Signed], den: u128) -> Result<Option<Signed>, Memory> {
    let [Signed::Part(p)] = factors else {
        return Ok(None);
    };
    let Ok(divisor) = i128::try_from(den) else {
        return Ok(None);
    };
    if !p
        .terms
        .iter()
        .all(|m| m.coef.checked_rem(divisor) == Some(0))
    {
        return Ok(None);
    }
    Ok(Some(Signed::Part(divided_poly(alloc, p, divisor)?)))
}

// A polynomial, each coefficient divided.
fn divided_poly(alloc: Global, p: &Poly, divisor: i128) -> Result<Poly, Memory> {
    let mut q = copied_poly(alloc, p)?;
    for monomial in &mut q.terms {
        monomial.coef = monomial.coef.checked_div(divisor).unwrap_or(0);
    }
    Ok(q)
}

// A sum of products as a bound, those without a factor last; none where a number would be too large.
fn sum_of(alloc: Global, products: Vec<Product>) -> Result<Option<Signed>, Memory> {
    let mut parts = Vec::new(alloc);
    let mut constant = 0u128;
    for product in products {
        if product.factors.is_empty() {
            match constant.checked_add(product.coefficient) {
                Some(sum) => constant = sum,
                None => return Ok(None),
            }
        } else if product.coefficient > 0 {
            parts.push(product_of(alloc, product)?)?;
        }
    }
    if constant > 0 || parts.is_empty() {
        parts.push(Signed::Const(constant))?;
    }
    Ok(Some(only_or_composed(parts, Composition::Sum)))
}

// How several bounds are combined.
#[derive(Clone, Copy)]
enum Composition {
    Sum,
    Product,
}

// A product as a bound.
fn product_of(alloc: Global, product: Product) -> Result<Signed, Memory> {
    let Product {
        coefficient,
        factors,
    } = product;
    let mut parts = Vec::new(alloc);
    if coefficient != 1 {
        parts.push(Signed::Const(coefficient))?;
    }
    for factor in factors {
        parts.push(factor)?;
    }
    Ok(only_or_composed(parts, Composition::Product))
}

// The only one of some bounds, or else their sum or product.
fn only_or_composed(parts: Vec<Signed>, composition: Composition) -> Signed {
    let mut parts = parts;
    if parts.len() == 1 {
        if let Some(part) = parts.pop() {
            return part;
        }
    }
    match composition {
        Composition::Sum => Signed::Sum(parts),
        Composition::Product => Signed::Prod(parts),
    }
}
