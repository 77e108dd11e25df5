//! The polynomials of literals and variables.

ghost use Rattle.poly_terms.specs.Expanding.{literal_form, variable_form};
ghost use Rattle.poly_terms.specs.Faults.{fault_in};
ghost use Rattle.poly_terms.specs.Answers.{Answers};

use crate::limits::limited;
use crate::nonzero::push_nonzero;
use crate::poly::{Monomial, Poly};
use crate::poly_error::PolyError;
use std::alloc::Global;

/// The polynomial of a literal, or its fault.
pub(crate) fn literal(alloc: Global, z: i128) -> Result<Poly, PolyError>
    ensures { Answers result (fault_in (literal_form z) 1) (literal_form z) }
{
    let mut terms = Vec::new(alloc);
    push_nonzero(&mut terms, z, Vec::new(alloc))?;
    limited(Poly { terms }, 1)
}

/// The polynomial of a variable.
pub(crate) fn variable(alloc: Global, i: u32) -> Result<Poly, PolyError>
    ensures { Answers result (fault_in (variable_form i) 1) (variable_form i) }
{
    let vars = vec![in alloc; i]?;
    let terms = vec![in alloc; Monomial { coef: 1, vars }]?;
    limited(Poly { terms }, 1)
}
