//! Powers of polynomials by packed exponents.

ghost use Rattle.std.specs.Prelude.{◌≡◌, true, IfOk, IfSome};
ghost use Rattle.poly_terms.specs.Keys.{ascend_from, IsModest, IsPowerAt};
ghost use Rattle.poly_terms.specs.Ordered.{IsSmall};
ghost use Rattle.poly_terms.specs.Powers.{IsPowerWithout};
ghost use Rattle.poly_terms.specs.Views.{monomials_of, poly_of};

use crate::Memory;
use crate::distinct::is_narrow;
use crate::key_error::{KeyError, unless_unfit};
use crate::key_product::product_of_lists;
use crate::keyed::{Keyed, ONE};
use crate::limits::degree;
use crate::packing::{packed, unpacked_sum};
use crate::poly::{Monomial, Poly};
use crate::table::table_of;
use model::{DEGREE_LIMIT, MONOMIAL_LIMIT};
use std::alloc::Global;

/// The power, if no lower one has a fault, or `None` if it has to be computed factor by factor.
pub(crate) fn power_by_keys(alloc: Global, p: &Poly, exponent: u32) -> Result<Option<Poly>, Memory>
    requires { IsSmall (poly_of p.now) }
    ensures { IfOk result (λ found. IfSome found (λ r. IsPowerWithout (poly_of p.now) exponent (poly_of r))) }
{
    unless_unfit(power_by_table(alloc, &p.terms, exponent))
}

// The power, if everything fits.
fn power_by_table(alloc: Global, p: &[Monomial], exponent: u32) -> Result<Poly, KeyError>
    requires { IsSmall (monomials_of p.now) }
    ensures { IfOk result (λ r. IsPowerWithout (monomials_of p.now) exponent (poly_of r)) }
{
    if exponent < 2 || degree(p).saturating_mul(exponent as usize) > DEGREE_LIMIT as usize {
        return Err(KeyError::Unfit);
    }
    if exponent > DEGREE_LIMIT {
        return Err(KeyError::Unfit);
    }
    let table = table_of(alloc, p, &[])?;
    let factor = packed(alloc, &table, p)?;
    let whole = power_of_list(alloc, &table, &factor, exponent)?;
    unpacked_sum(alloc, &table, &whole)
}

/// A power of a list, multiplied out factor by factor while the lower powers are modest.
pub(crate) fn power_of_list(
    alloc: Global,
    table: &[u32],
    factor: &[Keyed],
    exponent: u32,
) -> Result<Vec<Keyed>, KeyError>
    requires { ascend_from 0 table.now ≡ true }
    ensures { IfOk result (λ es. IsPowerAt table.now factor.now exponent es.items) }
{
    let mut so_far = vec![in alloc; ONE]?;
    for k in 0..exponent {
        if !is_modest(table, &so_far) {
            return Err(KeyError::Unfit);
        }
        so_far = product_of_lists(alloc, &so_far, factor)?;
    }
    Ok(so_far)
}

/// Whether a list has few monomials and small coefficients.
pub(crate) fn is_modest(table: &[u32], es: &[Keyed]) -> bool
    requires { ascend_from 0 table.now ≡ true }
    ensures { result ≡ true → IsModest table.now es.now }
{
    es.len() <= MONOMIAL_LIMIT && is_narrow(table, es)
}
