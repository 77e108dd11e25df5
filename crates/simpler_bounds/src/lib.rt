//! Simpler forms of signed bounds, their degrees, and their values at sample points, for searches whose results are checked.
//!
//! Builds on `signed_bounds` and `potential_types` (copies). No contract says how a simpler form compares with the bound:
//! whoever states it has `signed_within::is_within` compare them.
#![tactic(auto)]

mod degrees;
mod maxima;
mod products;
mod simplifying;
mod values;

pub use degrees::degree;
pub use maxima::greatest;
pub use simplifying::{quotient, simplified};
pub use values::judged_value;
