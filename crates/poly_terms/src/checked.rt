//! Evaluates expressions in 128 bits.

ghost use Rattle.std.specs.Prelude.{◌≡◌, ◌++◌, ◌+◌, ◌<◌, length, pos, slice_index_or};
ghost use Rattle.poly_terms.specs.Checked.{value_within, ReadsBelow};
ghost use Rattle.poly_terms.specs.Views.{term_of};

use crate::expr::Expr;

/// The value of an expression, where variable i has the value `env[i]`; `None` exactly if the exact value of some
/// subexpression exceeds 128 bits. It allocates no memory.
pub fn value_checked(e: &Expr, env: &[i128]) -> Option<i128>
    requires { ReadsBelow (length env.now) (term_of e.now) }
    ensures { result ≡ value_within (term_of e.now) env.now }
{
    value_in_parts(e, env, &[])
}

/// The same for values given as two lists: the second continues the first.
pub fn value_in_parts(e: &Expr, left: &[i128], right: &[i128]) -> Option<i128>
    requires { ReadsBelow (length left.now + length right.now) (term_of e.now) }
    ensures { result ≡ value_within (term_of e.now) (left.now ++ right.now) }
{
    match e {
        Expr::Num(z) => Some(*z),
        Expr::Var(i) => Some(value_of_variable(*i as usize, left, right)),
        Expr::Neg(e) => value_in_parts(e, left, right)?.checked_neg(),
        Expr::Add(d, e) => {
            let x = value_in_parts(d, left, right)?;
            x.checked_add(value_in_parts(e, left, right)?)
        }
        Expr::Sub(d, e) => {
            let x = value_in_parts(d, left, right)?;
            x.checked_sub(value_in_parts(e, left, right)?)
        }
        Expr::Mul(d, e) => {
            let x = value_in_parts(d, left, right)?;
            x.checked_mul(value_in_parts(e, left, right)?)
        }
        Expr::Pow(e, exponent) => value_in_parts(e, left, right)?.checked_pow(*exponent),
    }
}

// The value of a variable.
fn value_of_variable(i: usize, left: &[i128], right: &[i128]) -> i128
    requires { i < length left.now + length right.now }
    ensures { result ≡ slice_index_or (left.now ++ right.now) i (pos 0) }
{
    if i < left.len() {
        left[i]
    } else {
        right[i - left.len()]
    }
}
