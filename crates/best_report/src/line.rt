//! The lines of a report.

use crate::subject::Subject;
use signed_bounds::Signed;

/// A subject, and the bound on it over the start values, if there is one.
#[derive(Debug, Drop)]
pub struct Line {
    pub subject: Subject,
    pub bound: Option<Signed>,
}
