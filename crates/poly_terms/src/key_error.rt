//! Why a polynomial can't be computed with packed exponents.

ghost use Rattle.std.specs.Prelude.{◌≡◌, IfOk, IfSome, Ok};
ghost use Rattle.poly_terms.specs.declared.key_error.KeyError.TheVariants.{Memory};

use crate::Memory;
use crate::poly::Poly;
use std::alloc::{AllocError, AllocFailed};

/// Why a polynomial can't be computed with packed exponents.
#[derive(Clone, Copy)]
pub(crate) enum KeyError {
    /// Variables, factors, coefficients or monomials are too many or too large, so the polynomial has to be computed
    /// without packing.
    Unfit,
    /// Memory ran out.
    Memory,
}

impl From<AllocError> for KeyError {
    ghost from_gives = { λ _ e. e ≡ Memory };

    fn from(_error: AllocError) -> KeyError {
        KeyError::Memory
    }
}

impl<T: Drop> From<AllocFailed<T>> for KeyError {
    ghost from_gives = { λ _ e. e ≡ Memory };

    fn from(_error: AllocFailed<T>) -> KeyError {
        KeyError::Memory
    }
}

/// The polynomial, or `None` if something doesn't fit.
pub(crate) fn unless_unfit(whole: Result<Poly, KeyError>) -> Result<Option<Poly>, Memory>
    ensures { IfOk result (λ found. IfSome found (λ p. whole ≡ Ok p)) }
{
    match whole {
        Ok(p) => Ok(Some(p)),
        Err(KeyError::Unfit) => Ok(None),
        Err(KeyError::Memory) => Err(AllocError),
    }
}
