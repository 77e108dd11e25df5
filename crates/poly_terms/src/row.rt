//! Converts polynomials of degree at most 1 to rows.

ghost use Rattle.std.specs.Prelude.{◌≡◌, ◌≤◌, length, IfOk, IfSome, MatchOption};
ghost use Rattle.model.specs.Polynomials.{degree_of};
ghost use Rattle.poly_terms.specs.Ordered.{IsAscending};
ghost use Rattle.poly_terms.specs.AffineForms.{linear_form, with_coefficient, AreVariablesBelow, HasVariablesBelow};
ghost use Rattle.poly_terms.specs.AffineForms.{HasValueOf};
ghost use Rattle.poly_terms.specs.Views.{poly_of, form_of};

use crate::Memory;
use crate::limits::degree;
use crate::poly::{Monomial, Poly, Row};
use std::alloc::Global;

impl Poly {
    /// The greatest number of factors of a monomial.
    pub fn degree(&self) -> usize
        ensures { result ≡ degree_of (poly_of self.now) }
    {
        degree(&self.terms)
    }

    /// The row with a coefficient for each of `width` variables, or `None` exactly if the degree is at least 2.
    ///
    /// # Errors
    ///
    /// `Memory` if an allocation fails.
    pub fn linear_part(&self, alloc: Global, width: u32) -> Result<Option<Row>, Memory>
        requires ordered { IsAscending (poly_of self.now) }
        requires in_range { HasVariablesBelow width (poly_of self.now) }
        ensures row { IfOk result (λ found. MatchOption found
            (2 ≤ degree_of (poly_of self.now))
            (λ r. (degree_of (poly_of self.now) ≤ 1) × (form_of r ≡ linear_form width (poly_of self.now)))) }
        ensures value { IfOk result (λ found. IfSome found (λ r. HasValueOf (poly_of self.now) (form_of r))) }
    {
        let coefs = vec![in alloc; 0i128; width as usize]?;
        let mut row = Row { coefs, constant: 0 };
        for m in &self.terms {
            if m.vars.len() > 1 {
                return Ok(None);
            }
            put(&mut row, m);
        }
        Ok(Some(row))
    }
}

// Writes the coefficient of a monomial of degree at most 1 into a row.
fn put(row: &mut Row, m: &Monomial)
    requires linear { length m.now.vars.items ≤ 1 }
    requires in_range { AreVariablesBelow (length row.old.coefs.items) m.now.vars.items }
    ensures { form_of row.new ≡ with_coefficient (form_of row.old) m.now.vars.items m.now.coef }
{
    match m.vars.as_slice() {
        [] => row.constant = m.coef,
        [i, ..] => row.coefs[*i as usize] = m.coef,
    }
}
