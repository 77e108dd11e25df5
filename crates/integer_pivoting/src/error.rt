//! Why a linear program has no answer.

use std::alloc::{AllocError, AllocFailed};

/// Why a linear program has no answer.
#[derive(Clone, Copy, Debug, PartialEq, Eq)]
pub enum SolveError {
    /// A number is beyond 128 bits, or the method's own check of its solution failed.
    Range,
    /// The allowed work was done.
    Budget,
    /// Memory ran out.
    Memory,
}

impl From<AllocError> for SolveError {
    fn from(_: AllocError) -> SolveError {
        SolveError::Memory
    }
}

impl<T: Drop> From<AllocFailed<T>> for SolveError {
    fn from(_: AllocFailed<T>) -> SolveError {
        SolveError::Memory
    }
}
