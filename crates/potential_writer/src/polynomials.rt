//! Prints polynomials.

ghost use Rattle.std.specs.Prelude.{◌≡◌, ◌++◌, map, codes, OnOk};
ghost use Rattle.poly_terms.specs.Views.{monomial_of, monomials_of, poly_of};
ghost use Rattle.section_writer.specs.Lists.{each_behind, separated};
ghost use Rattle.potential_writer.specs.Parts.{factors_text, form_text, poly_text, term_text};

use crate::numbers::{push_next, push_number};
use itoa::Buffer;
use model::Memory;
use poly_terms::{Monomial, Poly};

/// The number of a rule, and a polynomial.
#[tactic(auto, unfolding(crate::specs::Parts::form_text))]
pub(crate) fn push_form(text: &mut Vec<u8>, rule: u32, form: &Poly) -> Result<(), Memory>
    ensures { OnOk result (text.new.items ≡ text.old.items ++ form_text rule (poly_of form.now)) }
{
    push_number(text, rule)?;
    text.extend_from_slice(b" ")?;
    push_poly(text, form)
}

/// A polynomial.
#[tactic(auto, unfolding(crate::specs::Parts::poly_text))]
pub(crate) fn push_poly(text: &mut Vec<u8>, p: &Poly) -> Result<(), Memory>
    ensures { OnOk result (text.new.items ≡ text.old.items ++ poly_text (poly_of p.now)) }
{
    text.extend_from_slice(b"[")?;
    push_separated_terms(text, &p.terms)?;
    text.extend_from_slice(b"]")
}

// The monomials, with a semicolon and a blank between them.
fn push_separated_terms(text: &mut Vec<u8>, terms: &[Monomial]) -> Result<(), Memory>
    ensures { OnOk result (text.new.items
        ≡ text.old.items ++ separated (codes "; ") (map term_text (monomials_of terms.now))) }
{
    let Some((first, others)) = terms.split_first() else {
        return Ok(());
    };
    push_term(text, first)?;
    push_more_terms(text, others)
}

// A semicolon and a blank before each monomial.
fn push_more_terms(text: &mut Vec<u8>, terms: &[Monomial]) -> Result<(), Memory>
    ensures { OnOk result (text.new.items
        ≡ text.old.items ++ each_behind (codes "; ") (map term_text (monomials_of terms.now))) }
{
    for term in terms {
        text.extend_from_slice(b"; ")?;
        push_term(text, term)?;
    }
    Ok(())
}

// A monomial.
fn push_term(text: &mut Vec<u8>, term: &Monomial) -> Result<(), Memory>
    ensures { OnOk result (text.new.items ≡ text.old.items ++ term_text (monomial_of term.now)) }
{
    text.extend_from_slice(Buffer::new().format(term.coef).as_bytes())?;
    push_factors(text, &term.vars)
}

// Each variable behind a star.
fn push_factors(text: &mut Vec<u8>, vars: &[u32]) -> Result<(), Memory>
    ensures { OnOk result (text.new.items ≡ text.old.items ++ factors_text vars.now) }
{
    for variable in vars {
        text.extend_from_slice(b"*")?;
        push_next(text, *variable)?;
    }
    Ok(())
}
