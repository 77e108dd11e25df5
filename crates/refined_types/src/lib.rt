//! Proof files of the third form as the code holds them. Contracts read each as the plain data of `refined_files`.
//!
//! Builds on `refined_programs`, `cert_types`, `potential_types` and `claim_types` for its fields, and on
//! `refined_files` (when a file is accepted). Main guarantee: each part of a file is read as that part of the plain
//! file, in order.
#![tactic(auto)]

mod file;

pub use file::RefinedFile;
