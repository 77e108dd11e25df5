//! Constructors of expressions from smaller ones, which are moved to the heap.

ghost use Rattle.std.specs.Prelude.{◌≡◌, IfOk};
ghost use Rattle.model.specs.Terms.{Negation, Addition, Subtraction, Multiplication, Exponentiation};
ghost use Rattle.poly_terms.specs.Views.{term_of};

use crate::Memory;
use crate::expr::Expr;
use std::alloc::Global;

impl Expr {
    /// `-e`.
    ///
    /// # Errors
    ///
    /// `Memory` if an allocation fails.
    pub fn negation(alloc: Global, e: Expr) -> Result<Expr, Memory>
        ensures { IfOk result (λ made. term_of made ≡ Negation (term_of e)) }
    {
        Ok(Expr::Neg(Box::new(alloc, e)?))
    }

    /// `d + e`.
    ///
    /// # Errors
    ///
    /// `Memory` if an allocation fails.
    pub fn sum(alloc: Global, d: Expr, e: Expr) -> Result<Expr, Memory>
        ensures { IfOk result (λ made. term_of made ≡ Addition (term_of d) (term_of e)) }
    {
        Ok(Expr::Add(Box::new(alloc, d)?, Box::new(alloc, e)?))
    }

    /// `d - e`.
    ///
    /// # Errors
    ///
    /// `Memory` if an allocation fails.
    pub fn difference(alloc: Global, d: Expr, e: Expr) -> Result<Expr, Memory>
        ensures { IfOk result (λ made. term_of made ≡ Subtraction (term_of d) (term_of e)) }
    {
        Ok(Expr::Sub(Box::new(alloc, d)?, Box::new(alloc, e)?))
    }

    /// `d * e`.
    ///
    /// # Errors
    ///
    /// `Memory` if an allocation fails.
    pub fn product(alloc: Global, d: Expr, e: Expr) -> Result<Expr, Memory>
        ensures { IfOk result (λ made. term_of made ≡ Multiplication (term_of d) (term_of e)) }
    {
        Ok(Expr::Mul(Box::new(alloc, d)?, Box::new(alloc, e)?))
    }

    /// `e ^ exponent`.
    ///
    /// # Errors
    ///
    /// `Memory` if an allocation fails.
    pub fn power(alloc: Global, e: Expr, exponent: u32) -> Result<Expr, Memory>
        ensures { IfOk result (λ made. term_of made ≡ Exponentiation (term_of e) exponent) }
    {
        Ok(Expr::Pow(Box::new(alloc, e)?, exponent))
    }
}
