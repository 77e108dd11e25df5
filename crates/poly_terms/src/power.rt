//! Powers of polynomials.

ghost use Rattle.std.specs.Prelude.{◌≡◌, IfOk};
ghost use Rattle.poly_terms.specs.Expanding.{power_of, one};
ghost use Rattle.poly_terms.specs.Powers.{faults_of_powers};
ghost use Rattle.poly_terms.specs.Ordered.{IsOrdered, IsSmall};
ghost use Rattle.poly_terms.specs.Views.{poly_of};
ghost use Rattle.poly_terms.specs.Answers.{Answers};

use crate::Memory;
use crate::key_power::power_by_keys;
use crate::limits::limited;
use crate::poly::{Monomial, Poly};
use crate::poly_error::PolyError;
use crate::product::multiplied_out;
use std::alloc::Global;

/// The polynomial that is 1 everywhere.
pub(crate) fn unit(alloc: Global) -> Result<Poly, Memory>
    ensures { IfOk result (λ p. poly_of p ≡ one) }
{
    let terms = vec![in alloc;
        Monomial {
            coef: 1,
            vars: Vec::new(alloc)
        },
    ]?;
    Ok(Poly { terms })
}

/// A power, or the first fault among this power and the lower ones. The first power is the polynomial itself.
pub(crate) fn power(alloc: Global, p: Poly, exponent: u32) -> Result<Poly, PolyError>
    requires small { IsSmall (poly_of p) }
    requires ordered { IsOrdered (poly_of p) }
    ensures { Answers result (faults_of_powers (poly_of p) exponent) (power_of (poly_of p) exponent) }
{
    if exponent == 1 {
        limited(p, 1)
    } else {
        power_in_steps(alloc, &p, exponent)
    }
}

// A power, or the first fault among this power and the lower ones.
fn power_in_steps(alloc: Global, p: &Poly, exponent: u32) -> Result<Poly, PolyError>
    requires { IsSmall (poly_of p.now) }
    ensures { Answers result (faults_of_powers (poly_of p.now) exponent) (power_of (poly_of p.now) exponent) }
{
    match power_by_keys(alloc, p, exponent) {
        Ok(Some(whole)) => limited(whole, exponent),
        Ok(None) => product_of_factors(alloc, p, exponent),
        Err(_) => Err(PolyError::Memory),
    }
}

// A power, or the first fault among this power and the lower ones. The ninth power has a fault, so at most nine are
// multiplied out.
fn product_of_factors(alloc: Global, p: &Poly, exponent: u32) -> Result<Poly, PolyError>
    requires { IsSmall (poly_of p.now) }
    ensures { Answers result (faults_of_powers (poly_of p.now) exponent) (power_of (poly_of p.now) exponent) }
{
    let mut so_far = unit(alloc)?;
    for k in 0..exponent {
        match multiplied_out(alloc, &so_far, p, k + 1) {
            Ok(next) => so_far = next,
            Err(error) => return Err(error),
        }
    }
    Ok(so_far)
}
