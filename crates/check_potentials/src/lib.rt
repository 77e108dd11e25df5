//! Checks of lemmas about potentials, one after the other.
//!
//! Builds on `potential_nodes` and `potential_ground` (what is checked, and that accepted lemmas hold),
//! `potential_types` (lemmas as the code holds them) and `signed_within` (the comparison of bounds). Main guarantee:
//! `check_lemmas` accepts exactly the lists of which no lemma is refused over a program's prepared rows, and then the
//! facts of all lemmas hold on all runs of the program; else it answers with the first lemma that is refused, and the
//! first reason.
#![tactic(auto)]

mod certificates;
mod combining;
mod expressions;
mod falls;
mod functions;
mod gains;
mod ground;
mod known;
mod lemmas;
mod moves;
mod peaks;
mod phases;
mod phasing;
mod rows;
mod shapes;
mod sized;
mod squares;

pub use ground::{Ground, PreparedRule, prepared_rows};
pub use lemmas::{LemmaFault, Refusal, check_lemmas};
pub use poly_terms::Memory;
