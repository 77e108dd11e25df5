//! Expressions over affine values.

ghost use Rattle.std.specs.Prelude.{◌≡◌, pos, slice_index_or};
ghost use Rattle.its_model.specs.poly_terms.Views.{term_of};
ghost use Rattle.affine_turns.specs.Affine.{affine_of, constant, with_free};

use crate::affine::Affine;
use poly_terms::Expr;

/// The affine value of an expression whose first variables have these affine values and the next ones these free
/// values, which don't change; a variable beyond these is 0. `None` if the expression's parts don't show that it is
/// affine (one factor of each product, and the base of each power, has to have slope 0), or if a number exceeds 128
/// bits. It allocates no memory.
pub fn affine_of(e: &Expr, places: &[Affine], free: &[i128]) -> Option<Affine>
    ensures { result ≡ affine_of (term_of e.now) (with_free places.now free.now) }
{
    match e {
        Expr::Num(z) => Some(Affine::constant(*z)),
        Expr::Var(i) => Some(variable(*i as usize, places, free)),
        Expr::Neg(e) => affine_of(e, places, free)?.opposite(),
        Expr::Add(d, e) => {
            let a = affine_of(d, places, free)?;
            a.plus(affine_of(e, places, free)?)
        }
        Expr::Sub(d, e) => {
            let a = affine_of(d, places, free)?;
            a.minus(affine_of(e, places, free)?)
        }
        Expr::Mul(d, e) => {
            let a = affine_of(d, places, free)?;
            a.times(affine_of(e, places, free)?)
        }
        Expr::Pow(e, exponent) => affine_of(e, places, free)?.power(*exponent),
    }
}

// The affine value of a variable.
fn variable(i: usize, places: &[Affine], free: &[i128]) -> Affine
    ensures { result ≡ slice_index_or (with_free places.now free.now) i (constant (pos 0)) }
{
    if i < places.len() {
        return places[i];
    }
    let behind = i - places.len();
    if behind < free.len() {
        Affine::constant(free[behind])
    } else {
        Affine::constant(0)
    }
}
