//! The checker of proof files of the third form, as data. It solves no linear program.
//!
//! Builds on `refinement_check` (sections), `check_file` (plain parts), `check_potentials` (lemmas about potentials)
//! and `claims_check` (claims). Main guarantee: `check_refined_file` accepts exactly the files that are accepted for a
//! program, as `refined_files` defines it, and then what their claims state holds on all runs of the program itself,
//! whoever made the file; else it names the first part that isn't accepted, and why.
#![tactic(auto)]

mod files;
mod lemmas;
mod refusal;
mod section;

pub use files::{
    check_over, check_refined_file, files_are_answered, refused_files_are_not_accepted,
};
pub use lemmas::stated_facts;
pub use refusal::FileRefusal;
pub use section::accepted_program;
