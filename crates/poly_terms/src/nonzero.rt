//! Lists of monomials without zeros.

ghost use Rattle.std.specs.Prelude.{◌≡◌, ◌++◌, [], ◌∷◌, not, OnOk};
ghost use Rattle.linear_forms.specs.int_laws.NormalForm.{is_zero};
ghost use Rattle.poly_terms.specs.Expanding.{without_zeros};
ghost use Rattle.poly_terms.specs.Views.{monomial_of, monomials_of};

use crate::Memory;
use crate::poly::Monomial;

/// Appends a monomial with these variables, unless its coefficient is 0.
pub(crate) fn push_nonzero(
    terms: &mut Vec<Monomial>,
    coef: i128,
    vars: Vec<u32>,
) -> Result<(), Memory>
    ensures { OnOk result (monomials_of terms.new.items
        ≡ monomials_of terms.old.items ++ without_zeros (record { coef = coef; vars = vars.items } ∷ [])) }
{
    if coef != 0 {
        terms.push(Monomial { coef, vars })?;
    }
    Ok(())
}

/// Appends a monomial, unless its coefficient is 0.
pub(crate) fn push_if_nonzero(terms: &mut Vec<Monomial>, m: Monomial) -> Result<(), Memory>
    ensures { OnOk result (monomials_of terms.new.items
        ≡ monomials_of terms.old.items ++ without_zeros (monomial_of m ∷ [])) }
{
    if is_nonzero(&m) {
        terms.push(m)?;
    }
    Ok(())
}

/// The monomials that aren't 0.
pub(crate) fn nonzero(terms: Vec<Monomial>) -> Vec<Monomial>
    ensures { monomials_of result.items ≡ without_zeros (monomials_of terms.items) }
{
    let mut terms = terms;
    terms.retain(|m| is_nonzero(m));
    terms
}

// Whether the coefficient isn't 0.
fn is_nonzero(m: &Monomial) -> bool
    ensures { result ≡ not (is_zero m.now.coef) }
{
    m.coef != 0
}
