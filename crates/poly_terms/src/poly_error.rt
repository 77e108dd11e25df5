//! Why an expression can't be expanded.

ghost use Rattle.std.specs.Prelude.{◌≡◌};
ghost use Rattle.poly_terms.specs.declared.poly_error.PolyError.TheVariants.{Memory};

use std::alloc::{AllocError, AllocFailed};

/// Why an expression can't be expanded: the least fault of its first subexpression with a fault, or memory ran out.
#[derive(Clone, Copy, Debug, PartialEq, Eq)]
pub enum PolyError {
    /// An expanded coefficient is over 2^63-1 in absolute value.
    CoefTooLarge,
    /// The expanded form has more than 64 monomials.
    TooManyTerms,
    /// The degree of the expanded form is over 8, or the exponent of a power is.
    DegreeTooHigh,
    /// Memory ran out.
    Memory,
}

impl From<AllocError> for PolyError {
    ghost from_gives = { λ _ e. e ≡ Memory };

    fn from(_error: AllocError) -> PolyError {
        PolyError::Memory
    }
}

impl<T: Drop> From<AllocFailed<T>> for PolyError {
    ghost from_gives = { λ _ e. e ≡ Memory };

    fn from(_error: AllocFailed<T>) -> PolyError {
        PolyError::Memory
    }
}
