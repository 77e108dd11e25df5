//! Location facts as a certificate: an accepted section of the program with the facts and their multipliers, and its text.
//!
//! Builds on `facts_section` (the section that facts make), `refinement_check` (which accepts it) and `section_writer`.
//! Main guarantee: the section that `facts_cert` returns is accepted, the text is that of the section, and the program
//! that it spells has exactly the runs of the program that the facts strengthen, and the bounds of that one. If it returns
//! `None`, a section of the facts has the right shape, and its first fault is a limit, or in its multipliers
//! (`HasRefusedSection`). No clause says that the multipliers are right.
#![tactic(auto)]

mod cert;
mod law;

pub use cert::{FactsCert, facts_cert};
pub use law::sections_refine_strengthened;
