//! The polynomial that is being read.

ghost use Rattle.std.specs.Prelude.{◌≡◌, OnOk};
ghost use Rattle.poly_terms.specs.Views.{poly_of};
ghost use Rattle.potential_text.specs.Polynomials as polynomials;
ghost use Rattle.potential_text.specs.Views.{terms_of};

use model::Memory;
use poly_terms::{Monomial, Poly};
use std::alloc::Global;
use std::mem::replace;

/// The factors of the monomial that is being read, and the monomials before it.
#[derive(Drop)]
pub struct Terms {
    pub vars: Vec<u32>,
    pub monomials: Vec<Monomial>,
}

impl Terms {
    /// Nothing was read.
    pub fn new(alloc: Global) -> Terms
        ensures { terms_of result ≡ polynomials.no_terms }
    {
        Terms {
            vars: Vec::new(alloc),
            monomials: Vec::new(alloc),
        }
    }

    /// A factor of the monomial, a variable from 0 on.
    ///
    /// # Errors
    ///
    /// `Memory` where an allocation fails.
    pub fn push_factor(&mut self, variable: u32) -> Result<(), Memory>
        ensures { OnOk result (terms_of self.new ≡ polynomials.with_factor variable (terms_of self.old)) }
    {
        self.vars.push(variable)?;
        Ok(())
    }

    /// The monomial ends, with this coefficient.
    ///
    /// # Errors
    ///
    /// `Memory` where an allocation fails.
    pub fn end_monomial(&mut self, alloc: Global, coefficient: i64) -> Result<(), Memory>
        ensures { OnOk result (terms_of self.new ≡ polynomials.with_monomial coefficient (terms_of self.old)) }
    {
        let vars = replace(&mut self.vars, Vec::new(alloc));
        self.monomials.push(Monomial {
            coef: i128::from(coefficient),
            vars,
        })?;
        Ok(())
    }

    /// The polynomial that was read; the next one begins.
    pub fn end(&mut self, alloc: Global) -> Poly
        ensures form { poly_of result ≡ (terms_of self.old).monomials }
        ensures left { terms_of self.new ≡ polynomials.without_monomials (terms_of self.old) }
    {
        Poly {
            terms: replace(&mut self.monomials, Vec::new(alloc)),
        }
    }
}
