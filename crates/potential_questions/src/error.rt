//! Why a question has no answer, and arithmetic that answers when it leaves 128 bits.

use integer_pivoting::SolveError;
use std::alloc::{AllocError, AllocFailed};

/// Why a question has no answer.
#[derive(Clone, Copy, Debug, PartialEq, Eq)]
pub enum SearchError {
    /// A number is beyond 128 bits, or too large for a lemma.
    Range,
    /// The allowed work was done.
    Budget,
    /// Memory ran out.
    Memory,
}

impl From<AllocError> for SearchError {
    fn from(_: AllocError) -> SearchError {
        SearchError::Memory
    }
}

impl<T: Drop> From<AllocFailed<T>> for SearchError {
    fn from(_: AllocFailed<T>) -> SearchError {
        SearchError::Memory
    }
}

impl From<SolveError> for SearchError {
    fn from(error: SolveError) -> SearchError {
        match error {
            SolveError::Range => SearchError::Range,
            SolveError::Budget => SearchError::Budget,
            SolveError::Memory => SearchError::Memory,
        }
    }
}

/// The sum of two numbers.
pub(crate) fn sum(a: i128, b: i128) -> Result<i128, SearchError> {
    a.checked_add(b).ok_or(SearchError::Range)
}

/// The product of two numbers.
pub(crate) fn product(a: i128, b: i128) -> Result<i128, SearchError> {
    a.checked_mul(b).ok_or(SearchError::Range)
}

/// The number with the other sign.
pub(crate) fn negation(a: i128) -> Result<i128, SearchError> {
    a.checked_neg().ok_or(SearchError::Range)
}

/// A number that isn't negative, in 64 bits.
pub(crate) fn natural(number: i128) -> Result<u64, SearchError> {
    u64::try_from(number).map_err(|_| SearchError::Range)
}

/// An index as a number.
pub(crate) fn as_number(index: usize) -> Result<u32, SearchError> {
    u32::try_from(index).map_err(|_| SearchError::Range)
}
