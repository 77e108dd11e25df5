//! Questions about potentials as linear programs: are there functions of symbols, with gains and certificates from the
//! rows of rules, that pay for charges, cover a polynomial, or count a rule in two phases?
//!
//! Builds on `guard_prep` (the rows of rules), `integer_pivoting` (linear programs) and `potential_types` (potentials
//! and certificates). Main guarantee: `ask` and `ask_phases` return, within the work that they may do. No contract
//! says that an answer is right: each is a table with certificates that `check_potentials` judges.
#![tactic(auto)]

mod asking;
mod directions;
mod draft;
mod error;
mod implication;
mod layout;
mod monomials;
mod polynomials;
mod question;
mod raising;
mod reaching;
mod scaling;
mod sparse;
mod squares;
mod start_costs;
mod system;
mod two_phases;

pub use asking::{FloorCertificates, Found, ask};
pub use directions::{Directions, directions_of, judges_of};
pub use error::SearchError;
pub use polynomials::{combined, constant_of, less_number, lone_poly};
pub use question::{Aim, GainOffer, PlaceOffer, PlannedMove, Question};
pub use raising::ask_raise;
pub use sparse::{FormTerm, SparseForm};
pub use system::{PreparedRule, System, ZeroRows, is_marked, marked_alone, system_of};
pub use two_phases::ask_phases;
