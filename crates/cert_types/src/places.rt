//! Forms over a denominator as bounds, at the sizes of the places after a rule.

ghost use Rattle.std.specs.Prelude.{◌≡◌, ℕ, ◌+◌, ◌≤◌, ◌<◌, ◌^◌, ◌||◌, length, map, IfOk, nat_abs};
ghost use Rattle.linear_forms.specs.int_laws.NormalForm.{is_zero};
ghost use Rattle.poly_terms.specs.model.Bounds.{Constant, ProductOf};
ghost use Rattle.bound_expr.specs.Views.{bound_of, bounds_of, parts_of};
ghost use Rattle.cert_program.specs.rule_forms.Bounds.{height};
ghost use Rattle.cert_program.specs.cert_rules.Known.{known as known_bound};
ghost use Rattle.cert_program.specs.cert_rules.Numbers.{rounded_up};
ghost use Rattle.cert_program.specs.cert_rules.Composed.{both_parts, place_parts, rest_bound, sizes_after};
ghost use Rattle.cert_program.specs.cert_rules.ComposedSizes.{is_member};
ghost use Rattle.cert_types.specs.Views.{member_of};
ghost use Rattle.cert_types.specs.Lookups.{optional_bound};
ghost use Rattle.cert_types.specs.Sizes.{is_result_variable_of, is_result_variable, members_from, sizes_from, joined, place_part};

use crate::known::Known;
use crate::side_bound::Member;
use bound_expr::{Bound, Memory};
use std::alloc::Global;

// A number over a denominator, rounded up.
fn rounded(n: u64, den: u64) -> u128
    requires { 1 ≤ den }
    ensures { result ≡ rounded_up n den }
{
    (u128::from(n) + (u128::from(den) - 1)) / u128::from(den)
}

/// The absolute value of a coefficient over a denominator, rounded up.
pub fn rounded_coefficient(coef: &i64, den: u64) -> u128
    requires { 1 ≤ den }
    ensures { result ≡ rounded_up (nat_abs coef.now) den }
{
    rounded(coef.unsigned_abs(), den)
}

// The positive part of a number.
fn positive(n: i64) -> u64
    ensures { result ≡ height n }
{
    if n > 0 { n.unsigned_abs() } else { 0 }
}

/// A copy of the known bound, or the constant 0 if there is none.
///
/// # Errors
///
/// `Memory` where an allocation fails.
pub fn known_or_zero(alloc: Global, bound: Option<&Bound>) -> Result<Bound, Memory>
    ensures { IfOk result (λ b. bound_of b ≡ known_bound (optional_bound bound.entry)) }
{
    match bound {
        Some(b) => b.copied(alloc),
        None => Ok(Bound::Const(0)),
    }
}

// The product of a number and a bound.
fn times(alloc: Global, n: u128, b: Bound) -> Result<Bound, Memory>
    ensures { IfOk result (λ r. bound_of r ≡ ProductOf (both_parts (Constant n) (bound_of b))) }
{
    let mut factors = Vec::new(alloc);
    factors.push(Bound::Const(n))?;
    factors.push(b)?;
    Ok(Bound::Prod(factors))
}

// Whether the member is the place after the rule.
fn is_at(member: &Member, rule: u32, place: u32) -> bool
    ensures { result ≡ is_result_variable_of rule place (member_of member.now) }
{
    member.result_variable.rule == rule && member.result_variable.place == place
}

/// Whether the place after the rule is a member.
pub fn has_result_variable(members: &[Member], rule: u32, place: u32) -> bool
    ensures { result ≡ is_result_variable (map member_of members.now) rule place }
{
    for member in members {
        if is_at(member, rule, place) {
            return true;
        }
    }
    false
}

// Whether a place has no part: its coefficient is 0, or it is a member.
#[tactic(auto, using(crate::proofs::Parts::out_by_zero, crate::proofs::Parts::out_by_member))]
fn is_left_out(coef: &i64, members: &[Member], rule: u32, place: u32) -> bool
    ensures { result ≡ is_zero coef.now || is_result_variable (map member_of members.now) rule place }
{
    if *coef == 0 {
        return true;
    }
    has_result_variable(members, rule, place)
}

// Pushes the part of a place, if it has one: the absolute coefficient over the denominator, rounded up, times the
// place's size.
#[tactic(auto, using(crate::proofs::Parts::not_pushed))]
fn push_place<K: Known>(
    alloc: Global,
    parts: &mut Vec<Bound>,
    coef: &i64,
    den: u64,
    known: &K,
    rule: u32,
    place: u32,
    members: &[Member],
) -> Result<(), Memory>
    requires { 1 ≤ den }
    ensures { IfOk result (λ _. parts_of (bounds_of parts.new.items) ≡ joined (parts_of (bounds_of parts.old.items))
        (place_part coef.now den (is_result_variable (map member_of members.now) rule place) (known_bound ((K.table
        known.now).size rule place)))) }
{
    let is_out = is_left_out(coef, members, rule, place);
    if is_out {
        return Ok(());
    }
    let size = known_or_zero(alloc, known.size(rule, place))?;
    let part = times(alloc, rounded_coefficient(coef, den), size)?;
    parts.push(part)?;
    Ok(())
}

// Pushes the parts of places that have these coefficients, where the first of them has the number `place`, in order.
fn push_places<K: Known>(
    alloc: Global,
    parts: &mut Vec<Bound>,
    coefs: &[i64],
    den: u64,
    known: &K,
    rule: u32,
    place: u32,
    members: &[Member],
) -> Result<(), Memory>
    requires over { 1 ≤ den }
    requires few { place + length coefs.now < 2 ^ 32 }
    ensures { IfOk result (λ _. parts_of (bounds_of parts.new.items) ≡ joined (parts_of (bounds_of parts.old.items))
        (place_parts coefs.now den (members_from (map member_of members.now) rule place) (sizes_from (K.table
        known.now) rule place))) }
{
    let Some((coef, others)) = coefs.split_first() else {
        return Ok(());
    };
    push_place(alloc, parts, coef, den, known, rule, place, members)?;
    push_places(alloc, parts, others, den, known, rule, place + 1, members)
}

/// A form over a denominator as a bound, at the sizes of the places after a rule, without the places that are members:
/// the positive part of the constant over the denominator, rounded up, and for each other place whose coefficient isn't
/// 0 the absolute coefficient over the denominator, rounded up, times the place's size. An unknown size counts as 0.
///
/// # Errors
///
/// `Memory` where an allocation fails.
pub(crate) fn form_bound<K: Known>(
    alloc: Global,
    coefs: &[i64],
    constant: i64,
    den: u64,
    known: &K,
    rule: u32,
    members: &[Member],
) -> Result<Bound, Memory>
    requires over { 1 ≤ den }
    requires few { length coefs.now < 2 ^ 31 }
    ensures { IfOk result (λ b. bound_of b ≡ rest_bound (record { coefs = coefs.now; constant = constant }) den
        (is_member (map member_of members.now) rule) (sizes_after (K.table known.now).size rule)) }
{
    let mut parts = Vec::new(alloc);
    parts.push(Bound::Const(rounded(positive(constant), den)))?;
    push_places(alloc, &mut parts, coefs, den, known, rule, 1, members)?;
    Ok(Bound::Sum(parts))
}
