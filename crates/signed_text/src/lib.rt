//! Prints signed bounds for people: bounds over the start values themselves, with the names of the start arguments.
//!
//! Builds on `signed_bounds`. Main guarantee: `signed_text` is the text of a bound, kind by kind, and `write_signed`
//! appends exactly that; `write_polynomial` appends the text of a polynomial.
#![tactic(auto)]

mod bounds;
mod law;
mod polynomials;

pub use bounds::write_signed;
pub use law::worked_texts_hold;
pub use polynomials::{write_polynomial, write_variable};
