//! The value of a polynomial in 128 bits.

ghost use Rattle.std.specs.Prelude.{◌≡◌, pos, slice_index_or, IfSome};
ghost use Rattle.poly_terms.specs.model.Polynomials.{polynomial_value, product_value};
ghost use Rattle.poly_terms.specs.Views.{poly_of, monomials_of};
ghost use Rattle.bound_expr.specs.Capped.{capped};
ghost use Rattle.signed_bounds.specs.Bounds.{positive_part as part_of};

use poly_terms::{Monomial, Poly};

/// The positive part of a polynomial; `None` where 128 bits don't suffice for a product or a sum on the way.
pub(crate) fn positive_part(p: &Poly, start: &[i128]) -> Option<u128>
    ensures { IfSome result (λ v. v ≡ capped (part_of (polynomial_value (poly_of p.now) start.now))) }
{
    let value = value_of(&p.terms, start)?;
    Some(if value < 0 { 0 } else { value.unsigned_abs() })
}

// The value of a sum of monomials.
fn value_of(terms: &[Monomial], start: &[i128]) -> Option<i128>
    ensures { IfSome result (λ z. z ≡ polynomial_value (monomials_of terms.now) start.now) }
{
    match terms.split_first() {
        None => Some(0),
        Some((first, others)) => {
            let value = first.coef.checked_mul(product_of(&first.vars, start)?)?;
            value.checked_add(value_of(others, start)?)
        }
    }
}

// The product of the values of variables.
fn product_of(vars: &[u32], start: &[i128]) -> Option<i128>
    ensures { IfSome result (λ z. z ≡ product_value vars.now start.now) }
{
    match vars.split_first() {
        None => Some(1),
        Some((first, others)) => value_at(start, *first).checked_mul(product_of(others, start)?),
    }
}

// The value of a start argument; 0 where there is no such argument.
fn value_at(start: &[i128], variable: u32) -> i128
    ensures { result ≡ slice_index_or start.now variable (pos 0) }
{
    match start.get(variable as usize) {
        Some(value) => *value,
        None => 0,
    }
}
