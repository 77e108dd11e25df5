//! Integer expressions as trees, their expanded polynomials, and the linear rows of polynomials of degree at most 1.
//!
//! Builds on `model` (the meaning of terms) and `linear_forms` (rows). Main guarantee: a tree `e` has the value `value
//! (term_of e)`, where `term_of` gives it as plain data, and `expand` returns a polynomial with the same value, or an
//! error exactly if a limit is exceeded.
#![tactic(auto)]

mod checked;
mod distinct;
mod expanding;
mod expr;
mod factors;
mod form_error;
mod form_steps;
mod forming;
mod key_degree;
mod key_error;
mod key_form;
mod key_power;
mod key_product;
mod keyed;
mod law;
mod leaves;
mod limits;
mod make;
mod merge;
mod nonzero;
mod packing;
mod poly;
mod poly_error;
mod power;
mod product;
mod row;
mod scale;
mod sum;
mod table;
mod wide;

pub use checked::{value_checked, value_in_parts};
pub use expanding::{expand, expand_difference, expand_strict_difference};
pub use expr::Expr;
pub use law::forms_are_worked_out;
pub use model::Memory;
pub use poly::{Monomial, Poly, Row};
pub use poly_error::PolyError;
