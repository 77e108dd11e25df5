//! What is found for a program.

use claims_check::Statement;
use refined_types::RefinedFile;

/// A proof file that the checker accepts, and what its claims state, in order.
#[derive(Drop)]
pub struct AcceptedFile {
    pub file: RefinedFile,
    pub stated: Vec<Statement>,
}

/// The best one of the accepted files, and the best statement on each subject among those of all of them.
#[derive(Drop)]
pub struct Found {
    pub file: AcceptedFile,
    pub best: Vec<Statement>,
}
