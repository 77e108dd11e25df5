//! The values, the polynomials and the rows of expressions in reverse Polish notation.

ghost use Rattle.std.specs.Prelude.{◌≡◌, true};
ghost use Rattle.poly_terms.specs.Checked.{ReadsBelow};
ghost use Rattle.poly_terms.specs.Views.{term_of};

use crate::words::{number, numbers};
use model::Memory;
use poly_terms::{Expr, expand, value_checked};
use sample_expressions::expression;
use std::alloc::Global;

// Whether each variable of an expression is below n.
fn reads_below(n: usize, e: &Expr) -> bool
    ensures { result ≡ true → ReadsBelow n (term_of e.now) }
{
    match e {
        Expr::Num(_) => true,
        Expr::Var(i) => (*i as usize) < n,
        Expr::Neg(e) => reads_below(n, e),
        Expr::Add(d, e) => reads_below(n, d) && reads_below(n, e),
        Expr::Sub(d, e) => reads_below(n, d) && reads_below(n, e),
        Expr::Mul(d, e) => reads_below(n, d) && reads_below(n, e),
        Expr::Pow(e, _) => reads_below(n, e),
    }
}

/// The value of an expression, after a semicolon, at the values before it, or `None` if it exceeds 128 bits.
pub(crate) fn valued(alloc: Global, text: &str) -> Result<String, Memory> {
    let (values, e) = text.split_once(';').unwrap_or(("", text));
    let values = numbers(alloc, values)?;
    let e = expression(alloc, e)?;
    if reads_below(values.len(), &e) {
        format!(in alloc; "{:?}", value_checked(&e, &values))
    } else {
        String::from_str(alloc, "a variable has no value")
    }
}

/// The polynomial of an expression or its first fault; `fault` asks for the fault alone.
pub(crate) fn expanded(alloc: Global, call: &str, text: &str) -> Result<String, Memory> {
    let answer = expand(alloc, &expression(alloc, text)?);
    if call == "fault" {
        format!(in alloc; "{:?}", answer.err())
    } else {
        format!(in alloc; "{answer:?}")
    }
}

/// The row of an expression, after a semicolon, over the number of variables before it, or `None` if its degree is at
/// least 2.
pub(crate) fn row(alloc: Global, text: &str) -> Result<String, Memory> {
    let (width, e) = text.split_once(';').unwrap_or(("", text));
    let width = number(width);
    let e = expression(alloc, e)?;
    if reads_below(width as usize, &e) {
        row_text(alloc, &e, width)
    } else {
        String::from_str(alloc, "a variable has no coefficient")
    }
}

// The row of an expression over a number of variables, or `None`.
#[tactic(auto, using(crate::proofs::Laws::below_of))]
fn row_text(alloc: Global, e: &Expr, width: u32) -> Result<String, Memory>
    requires { ReadsBelow width (term_of e.now) }
{
    match expand(alloc, e) {
        Ok(p) => format!(in alloc; "{:?}", p.linear_part(alloc, width)?),
        Err(error) => format!(in alloc; "{error:?}"),
    }
}
