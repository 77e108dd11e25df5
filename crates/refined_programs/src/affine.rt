//! Affine expressions with whole coefficients.

ghost use Rattle.std.specs.Prelude.{◌≡◌, IfOk, pos};
ghost use Rattle.poly_terms.specs.Views.{term_of};
ghost use Rattle.refined_programs.specs.Affine.{affine_term, number_term, with_product};

use poly_terms::{Expr, Memory};
use std::alloc::{AllocError, Global};

/// An affine form: a coefficient for each variable, and a constant.
#[derive(Debug, PartialEq, Eq, Drop)]
pub struct Affine {
    /// The coefficients, in order of variables.
    pub coefs: Vec<i64>,
    pub constant: i64,
}

impl Affine {
    /// The expression: the constant, and then, added one by one in order of variables, the products of the coefficients
    /// that aren't 0 with their variables. A negative number is the negation of its absolute value.
    ///
    /// # Errors
    ///
    /// `Memory` where an allocation fails, and where there are 2^32 coefficients or more.
    pub fn expr(&self, alloc: Global) -> Result<Expr, Memory>
        ensures { IfOk result (λ e. term_of e ≡ affine_term self.now.coefs.items self.now.constant) }
    {
        let mut sum = number(alloc, self.constant)?;
        for i in 0..self.coefs.len() {
            sum = added(alloc, sum, i, self.coefs[i])?;
        }
        Ok(sum)
    }
}

// A number: a negative one is the negation of its absolute value.
fn number(alloc: Global, n: i64) -> Result<Expr, Memory>
    ensures { IfOk result (λ e. term_of e ≡ number_term n) }
{
    let wide = i128::from(n);
    if wide < 0 {
        Expr::negation(alloc, Expr::Num(-wide))
    } else {
        Ok(Expr::Num(wide))
    }
}

// The sum of an expression and the product of a coefficient with its variable; the expression alone if the coefficient
// is 0.
fn added(alloc: Global, sum: Expr, variable: usize, coef: i64) -> Result<Expr, Memory>
    ensures { IfOk result (λ e. term_of e ≡ with_product (term_of sum) variable coef) }
{
    if coef == 0 {
        return Ok(sum);
    }
    let factor = number(alloc, coef)?;
    let product = Expr::product(alloc, factor, Expr::Var(variable_number(variable)?))?;
    Expr::sum(alloc, sum, product)
}

// The number of a variable; `Memory` if it has more than 32 bits.
fn variable_number(position: usize) -> Result<u32, Memory>
    ensures { IfOk result (λ number. number ≡ position) }
{
    if position <= u32::MAX as usize {
        Ok(position as u32)
    } else {
        Err(AllocError)
    }
}
