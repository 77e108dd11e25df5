//! Builds the side bound from a solution of a kind's linear program.

ghost use Rattle.std.specs.Prelude.{◌≡◌, suc, ◌+◌, ◌*◌, ◌*ℤ◌, ◌≤◌, nat_eq, if◌then◌else◌, length, pos, nat_abs, IfOk};
ghost use Rattle.simplex_core.specs.linear_forms.Forms.{at};
ghost use Rattle.simplex_core.specs.linear_forms.Limits.{certificate_limit};
ghost use Rattle.simplex_core.specs.linear_forms.Questions.{listed};
ghost use Rattle.simplex_core.specs.linear_forms.QuestionLaws.{parameters_of};
ghost use Rattle.cert_types.specs.rule_forms.Kinds.{unit_of};
ghost use Rattle.cert_types.specs.rule_forms.Questions.{form_of};
ghost use Rattle.cert_types.specs.rule_forms.SoughtParts.{sought_places};
ghost use Rattle.cert_types.specs.cert_rules.Nodes.{Linear};
ghost use Rattle.cert_types.specs.Views.{side_bound_of};
ghost use Rattle.simplex_core.specs.Scaling.{AreWithin};
ghost use Rattle.local_size.specs.Asking.{kind_of, sign_of, coefficient_of, constant_of};

use crate::kinds::{Kind, Sign};
use cert_types::SideBound;
use poly_terms::Memory;
use rule_questions::{multipliers_from, parameter_at};
use simplex_core::Numerators;
use std::alloc::Global;

/// The side bound of a solution: the form of its parameters, over its denominator, with the multipliers of this many
/// rows.
pub(crate) fn side_bound_from(
    alloc: Global,
    left: u32,
    rows: usize,
    kind: Kind,
    solution: &Numerators,
) -> Result<SideBound, Memory>
    requires within { AreWithin certificate_limit (length solution.now.numbers.items) solution.now.numbers.items }
    requires den { solution.now.den ≤ certificate_limit }
    requires few { left ≤ 96 }
    requires room { 2 * length (sought_places left (kind_of kind)) + rows ≤ length solution.now.numbers.items }
    ensures { IfOk result (λ side_bound. side_bound_of side_bound ≡ Linear solution.now.den
        (form_of left (kind_of kind) (parameters_of (at solution.now.numbers.items)) (pos solution.now.den))
        (listed rows (λ j. nat_abs (at solution.now.numbers.items
        (2 * length (sought_places left (kind_of kind)) + j))))) }
{
    let den = solution.den as u64;
    let coefs = coefs_from(alloc, left, kind, &solution.numbers, den)?;
    let constant = constant_from(left, kind, &solution.numbers);
    let start = 2 * sought_count(left, kind);
    let multipliers = multipliers_from(alloc, &solution.numbers, start, rows)?;
    Ok(SideBound::Linear {
        den,
        coefs,
        constant,
        multipliers,
    })
}

// How many places have coefficients to be found.
fn sought_count(left: u32, kind: Kind) -> usize
    requires { left ≤ 96 }
    ensures { result ≡ length (sought_places left (kind_of kind)) }
{
    match kind {
        Kind::Number => 1,
        Kind::Argument { .. } => 0,
        Kind::Affine => left as usize + 1,
    }
}

// The coefficient of each left argument.
fn coefs_from(
    alloc: Global,
    left: u32,
    kind: Kind,
    numbers: &[i64],
    den: u64,
) -> Result<Vec<i64>, Memory>
    requires within { AreWithin certificate_limit (length numbers.now) numbers.now }
    requires den { den ≤ certificate_limit }
    ensures { IfOk result (λ coefs. coefs.items
        ≡ listed left (coefficient_of (kind_of kind) (parameters_of (at numbers.now)) (pos den))) }
{
    let mut coefs = Vec::new(alloc);
    for unknown in 0..left {
        coefs.push(coefficient(kind, unknown, numbers, den))?;
    }
    Ok(coefs)
}

// The coefficient of a left argument in the form.
fn coefficient(kind: Kind, unknown: u32, numbers: &[i64], den: u64) -> i64
    requires within { AreWithin certificate_limit (length numbers.now) numbers.now }
    requires den { den ≤ certificate_limit }
    ensures { result ≡ coefficient_of (kind_of kind) (parameters_of (at numbers.now)) (pos den) unknown }
{
    match kind {
        Kind::Number => 0,
        Kind::Argument { place, sign } => own_coefficient(place, sign, unknown, den),
        Kind::Affine => parameter_at(numbers, unknown),
    }
}

// The coefficient of a left argument in the form of the one at a place, or of its negation, over a denominator.
fn own_coefficient(place: u32, sign: Sign, unknown: u32, den: u64) -> i64
    requires { den ≤ certificate_limit }
    ensures { result ≡ (if nat_eq (suc unknown) place then pos den *ℤ unit_of (sign_of sign) else pos 0) }
{
    if place == 0 || place - 1 != unknown {
        return 0;
    }
    match sign {
        Sign::Plus => den as i64,
        Sign::Minus => -(den as i64),
    }
}

// The constant of the form.
fn constant_from(left: u32, kind: Kind, numbers: &[i64]) -> i64
    requires { AreWithin certificate_limit (length numbers.now) numbers.now }
    ensures { result ≡ constant_of left (kind_of kind) (parameters_of (at numbers.now)) }
{
    match kind {
        Kind::Number => parameter_at(numbers, 0),
        Kind::Argument { .. } => 0,
        Kind::Affine => parameter_at(numbers, left),
    }
}
