//! What readers of texts share: the name and the row of digits that bytes begin with, the bytes of a piece, and the last
//! of the parts that are being read.
//!
//! Builds on `text_core`. Main guarantee: `leading_name` and `leading_digits` give the longest name and the longest row of
//! digits at the beginning of bytes.
#![tactic(auto)]

mod fronts;

pub use fronts::{leading_digits, leading_name, piece_bytes};
