//! Single steps whose result doesn't fit packed exponents: they are computed exactly with polynomials, and the result
//! is packed again.

ghost use Rattle.std.specs.Prelude.{IfOk};
ghost use Rattle.model.specs.Terms.{Term, Literal, Addition, Subtraction, Multiplication, Exponentiation};
ghost use Rattle.poly_terms.specs.Answers.{Answers};
ghost use Rattle.poly_terms.specs.Expanding.{expanded};
ghost use Rattle.poly_terms.specs.Faults.{first_fault};
ghost use Rattle.poly_terms.specs.KeyForms.{GivesForm, IsPackedFrom, RepresentsTerm, RepresentsSomeTerm};
ghost use Rattle.poly_terms.specs.Views.{poly_of};

use crate::form_error::FormError;
use crate::key_error::KeyError;
use crate::key_form::{KeyForm, expansion_of};
use crate::key_product::in_order;
use crate::leaves::literal;
use crate::limits::degree;
use crate::packing::packed;
use crate::poly::Poly;
use crate::poly_error::PolyError;
use crate::power::power;
use crate::product::limited_product;
use crate::scale::opposite_of;
use crate::sum::limited_sum;
use std::alloc::Global;

/// The packed form of a literal, or its fault.
pub(crate) fn exact_literal(alloc: Global, table: &[u32], z: i128) -> Result<KeyForm, FormError>
    ensures { GivesForm table.now result (Literal z) }
{
    packed_form(alloc, table, literal(alloc, z))
}

/// The packed form of the sum of two expressions, or its fault.
pub(crate) fn exact_sum(
    alloc: Global,
    table: &[u32],
    left: &KeyForm,
    right: &KeyForm,
) -> Result<KeyForm, FormError>
    requires left { RepresentsSomeTerm table.now left.now }
    requires right { RepresentsSomeTerm table.now right.now }
    ensures { (d e : Term) → RepresentsTerm table.now d left.now → RepresentsTerm table.now e right.now
        → GivesForm table.now result (Addition d e) }
{
    let p = expansion_of(alloc, table, left)?;
    let q = expansion_of(alloc, table, right)?;
    packed_form(alloc, table, limited_sum(alloc, p, q))
}

/// The packed form of the difference of two expressions, or its fault.
pub(crate) fn exact_difference(
    alloc: Global,
    table: &[u32],
    left: &KeyForm,
    right: &KeyForm,
) -> Result<KeyForm, FormError>
    requires left { RepresentsSomeTerm table.now left.now }
    requires right { RepresentsSomeTerm table.now right.now }
    ensures { (d e : Term) → RepresentsTerm table.now d left.now → RepresentsTerm table.now e right.now
        → GivesForm table.now result (Subtraction d e) }
{
    let p = expansion_of(alloc, table, left)?;
    let q = expansion_of(alloc, table, right)?;
    packed_form(alloc, table, limited_sum(alloc, p, opposite_of(q)))
}

/// The packed form of the product of two expressions, or its fault.
pub(crate) fn exact_product(
    alloc: Global,
    table: &[u32],
    left: &KeyForm,
    right: &KeyForm,
) -> Result<KeyForm, FormError>
    requires left { RepresentsSomeTerm table.now left.now }
    requires right { RepresentsSomeTerm table.now right.now }
    ensures { (d e : Term) → RepresentsTerm table.now d left.now → RepresentsTerm table.now e right.now
        → GivesForm table.now result (Multiplication d e) }
{
    let p = expansion_of(alloc, table, left)?;
    let q = expansion_of(alloc, table, right)?;
    packed_form(alloc, table, limited_product(alloc, p, q))
}

/// The packed form of a power of an expression, or its first fault.
pub(crate) fn exact_power(
    alloc: Global,
    table: &[u32],
    base: &KeyForm,
    exponent: u32,
) -> Result<KeyForm, FormError>
    requires { RepresentsSomeTerm table.now base.now }
    ensures { (e : Term) → RepresentsTerm table.now e base.now
        → GivesForm table.now result (Exponentiation e exponent) }
{
    let p = expansion_of(alloc, table, base)?;
    packed_form(alloc, table, power(alloc, p, exponent))
}

// The packed form of an expression that has this polynomial, or its fault.
fn packed_form(
    alloc: Global,
    table: &[u32],
    whole: Result<Poly, PolyError>,
) -> Result<KeyForm, FormError>
    ensures { (t : Term) → Answers whole (first_fault t) (expanded t) → GivesForm table.now result t }
{
    match whole {
        Ok(p) => Ok(packed_poly(alloc, table, &p)?),
        Err(error) => Err(FormError::Faulty(error)),
    }
}

// A polynomial packed, if each monomial fits. The order of a polynomial isn't that of keys.
fn packed_poly(alloc: Global, table: &[u32], p: &Poly) -> Result<KeyForm, KeyError>
    ensures { IfOk result (IsPackedFrom table.now (poly_of p.now)) }
{
    let monomials = packed(alloc, table, &p.terms)?;
    let terms = in_order(alloc, &monomials)?;
    match u32::try_from(degree(&p.terms)) {
        Ok(degree) => Ok(KeyForm { terms, degree }),
        Err(_) => Err(KeyError::Unfit),
    }
}
