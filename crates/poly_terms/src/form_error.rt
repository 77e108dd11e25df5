//! Why an expression has no form of packed monomials.

ghost use Rattle.std.specs.Prelude.{Option};
ghost use Rattle.poly_terms.specs.Faults.{Fault};
ghost use Rattle.poly_terms.specs.KeyForms.{IsFaultOf};

use crate::key_error::KeyError;
use crate::poly_error::PolyError;

/// Why an expression has no form in packed monomials.
#[derive(Clone, Copy)]
pub(crate) enum FormError {
    /// Something doesn't fit, for example the number of variables, so the form has to be computed with polynomials.
    Unfit,
    /// The expression has this fault, or memory ran out.
    Faulty(PolyError),
}

impl From<KeyError> for FormError {
    ghost from_gives = { λ _ e. (fault : Option Fault) → IsFaultOf e fault };

    fn from(error: KeyError) -> FormError {
        match error {
            KeyError::Unfit => FormError::Unfit,
            KeyError::Memory => FormError::Faulty(PolyError::Memory),
        }
    }
}
