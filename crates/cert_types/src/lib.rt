//! Certificates as Rust types: facts (time and size bounds), the derivation trees that prove them, gaps, the answers of
//! the searches, and the bounds that a node composes of its premises' bounds.
//!
//! Builds on `cert_program`, and on `farkas_cert` and `its_model` for its fields. Main guarantee: `proof_of` reads a
//! derivation as the plain data over which `cert_rules` defines acceptance and soundness, and composed bounds are
//! those of `cert_rules`. Their size is checked before and after they are rewritten by `rewrite_within` of
//! `bound_table`.
#![tactic(auto)]

mod answer;
mod copies;
mod entering;
mod fact;
mod file;
mod form_lookup;
mod gap;
mod known;
mod lookup;
mod places;
mod proof;
mod rank;
mod ranking;
mod reading;
mod side_bound;
mod spreading;

pub use answer::{GapFault, GuardFeasibility, LimitHit, Question, Reason};
pub use copies::{copied_local, copied_scaled};
pub use entering::{entries, source_of, target_of};
pub use fact::Fact;
pub use file::ProofFile;
pub use gap::Gap;
pub use known::{Known, Stated};
pub use linear_forms::LimitCause;
pub use lookup::{size_in, time_in};
pub use places::{has_result_variable, known_or_zero, rounded_coefficient};
pub use proof::{CostBy, CostNode, CycleNode, EmptyNode, Proof, SpreadNode, UnreachedNode, cite};
pub use rank::{Form, RankNode};
pub use ranking::{rank_form, rank_time};
pub use reading::{has_number, nonlinear_update, places_read};
pub use side_bound::{LocalBound, Member, ResultVariable, SideBound};
pub use spreading::{composed_side_bound, spread_size, spreads_are_over_what_comes_before};
