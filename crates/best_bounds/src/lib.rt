//! Looks for a proof file of the third form with good bounds on a program.
//!
//! Builds on `check_refined` (the checker), on the searches, whose answers are only used if the checker accepts them, and
//! on `facts_proof` (the file of what the analysis with facts prints). Main guarantee: `find` gives a file that is
//! accepted for the program, and on each subject a good statement of an accepted file, which holds on all runs of the
//! program; `find_certificate` gives a file that is no poorer in bounds on steps than that of the analysis, if there is
//! one; and `certificate` gives a file's text.
#![tactic(auto)]

mod acceptance;
mod candidates;
mod certificate_search;
mod comparing;
mod found_bounds;
mod law;
mod merging;
mod refinements;
mod scoring;
mod searches;
mod statements;
mod text_of_found;

pub use certificate_search::find_certificate;
pub use found_bounds::{AcceptedFile, Found};
pub use law::subjects_are_worked_out;
pub use searches::find;
pub use text_of_found::certificate;
