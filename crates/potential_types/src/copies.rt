//! Copies of polynomials, charges, certificates and bounds, in memory of their own. The only error is that memory ran
//! out.

ghost use Rattle.std.specs.Prelude.{◌≡◌, IfOk, map};
ghost use Rattle.poly_terms.specs.Views.{monomial_of, monomials_of, poly_of};
ghost use Rattle.signed_bounds.specs.Views.{signed_of, signeds_of};
ghost use Rattle.potential_types.specs.Views.{charge_of, summands_of};

use crate::facts::Charge;
use crate::summand::Summand;
use poly_terms::{Memory, Monomial, Poly};
use signed_bounds::Signed;
use std::alloc::Global;

// A copy of a monomial.
fn copied_monomial(alloc: Global, monomial: &Monomial) -> Result<Monomial, Memory>
    ensures { IfOk result (λ m. monomial_of m ≡ monomial_of monomial.now) }
{
    Ok(Monomial {
        coef: monomial.coef,
        vars: monomial.vars.as_slice().to_vec(alloc)?,
    })
}

/// Copies of monomials, in order.
pub fn copied_monomials(alloc: Global, monomials: &[Monomial]) -> Result<Vec<Monomial>, Memory>
    ensures { IfOk result (λ copies. monomials_of copies.items ≡ monomials_of monomials.now) }
{
    let mut copies = Vec::new(alloc);
    for monomial in monomials {
        copies.push(copied_monomial(alloc, monomial)?)?;
    }
    Ok(copies)
}

/// A copy of a polynomial.
pub fn copied_poly(alloc: Global, p: &Poly) -> Result<Poly, Memory>
    ensures { IfOk result (λ q. poly_of q ≡ poly_of p.now) }
{
    Ok(Poly {
        terms: copied_monomials(alloc, &p.terms)?,
    })
}

// A copy of a charge.
fn copied_charge(alloc: Global, charge: &Charge) -> Result<Charge, Memory>
    ensures { IfOk result (λ c. charge_of c ≡ charge_of charge.now) }
{
    Ok(Charge {
        rule: charge.rule,
        form: copied_poly(alloc, &charge.form)?,
    })
}

/// Copies of charges, in order.
pub fn copied_charges(alloc: Global, charges: &[Charge]) -> Result<Vec<Charge>, Memory>
    ensures { IfOk result (λ copies. map charge_of copies.items ≡ map charge_of charges.now) }
{
    let mut copies = Vec::new(alloc);
    for charge in charges {
        copies.push(copied_charge(alloc, charge)?)?;
    }
    Ok(copies)
}

/// A copy of a certificate.
pub fn copied_certificate(alloc: Global, certificate: &[Summand]) -> Result<Vec<Summand>, Memory>
    ensures { IfOk result (λ copies. summands_of copies.items ≡ summands_of certificate.now) }
{
    let mut copies = Vec::new(alloc);
    for summand in certificate {
        copies.push(*summand)?;
    }
    Ok(copies)
}

/// A copy of a bound.
#[cycle(copied)]
pub fn copied_bound(alloc: Global, bound: &Signed) -> Result<Signed, Memory>
    ensures { IfOk result (λ b. signed_of b ≡ signed_of bound.now) }
{
    match bound {
        Signed::Const(c) => Ok(Signed::Const(*c)),
        Signed::Part(p) => Ok(Signed::Part(copied_poly(alloc, p)?)),
        Signed::Sum(parts) => Ok(Signed::Sum(copied_parts(alloc, parts)?)),
        Signed::Prod(parts) => Ok(Signed::Prod(copied_parts(alloc, parts)?)),
        Signed::Max(parts) => Ok(Signed::Max(copied_parts(alloc, parts)?)),
        Signed::Min(first, parts) => {
            let first = Box::new(alloc, copied_bound(alloc, first)?)?;
            Ok(Signed::Min(first, copied_parts(alloc, parts)?))
        }
        Signed::Quotient(part, divisor) => {
            let part = Box::new(alloc, copied_bound(alloc, part)?)?;
            Ok(Signed::Quotient(part, *divisor))
        }
        Signed::Root(part) => {
            let part = Box::new(alloc, copied_bound(alloc, part)?)?;
            Ok(Signed::Root(part))
        }
        Signed::Power(base, exponent) => {
            let exponent = Box::new(alloc, copied_bound(alloc, exponent)?)?;
            Ok(Signed::Power(*base, exponent))
        }
    }
}

// Copies of bounds, in order.
#[cycle(copied)]
fn copied_parts(alloc: Global, parts: &[Signed]) -> Result<Vec<Signed>, Memory>
    ensures { IfOk result (λ copies. signeds_of copies.items ≡ signeds_of parts.now) }
{
    let mut copies = Vec::new(alloc);
    for part in parts {
        copies.push(copied_bound(alloc, part)?)?;
    }
    Ok(copies)
}
