//! The size bound that a spread node composes.

ghost use Rattle.std.specs.Prelude.{◌≡◌, ℕ, ◌<◌, ◌≤◌, ◌^◌, [], length, map, All, IfOk};
ghost use Rattle.poly_terms.specs.model.Bounds.{Constant, SumOf, ProductOf, Part};
ghost use Rattle.bound_expr.specs.Views.{bound_of};
ghost use Rattle.bound_table.specs.RewriteResult.{answer_of, rewritten_within};
ghost use Rattle.poly_terms.specs.Views.{monomial_of};
ghost use Rattle.cert_program.specs.cert_rules.Composed.{parts_for, sizes_after};
ghost use Rattle.cert_program.specs.cert_rules.ComposedSizes.{monomial_parts, monomial_bound as monomial_bound_of};
ghost use Rattle.cert_program.specs.cert_rules.ComposedSizes.{polynomial_bound as polynomial_bound_of, offset_of};
ghost use Rattle.cert_program.specs.cert_rules.ComposedSizes.{is_member};
ghost use Rattle.cert_types.specs.Views.{side_bound_of, member_of, local_of};
ghost use Rattle.cert_types.specs.Laws.{SpreadsAreOverWhatComesBefore};
ghost use Rattle.cert_types.specs.Composing.{optional_poly, HasFewVariables, HasFewPlaces, IsReadable};
ghost use Rattle.cert_types.specs.Composing.{both_side_bounds as both_side_bounds_of, spread_over};

use crate::known::Known;
use crate::places::{form_bound, known_or_zero};
use crate::side_bound::{LocalBound, Member, SideBound};
use bound_expr::{Bound, Memory};
use bound_table::{RewriteResult, rewrite_within};
use poly_terms::{Monomial, Poly};
use std::alloc::Global;

// The size of a left variable's place after a rule; variables count from 0.
#[tactic(auto, using(crate::proofs::Spreads::size_at))]
fn variable_size<K: Known>(
    alloc: Global,
    known: &K,
    rule: u32,
    variable: u32,
) -> Result<Bound, Memory>
    requires { variable < 2 ^ 31 }
    ensures { IfOk result (λ b. bound_of b ≡ sizes_after (K.table known.now).size rule variable) }
{
    known_or_zero(alloc, known.size(rule, variable + 1))
}

// A number times the sizes of variables, in order.
fn times_sizes<K: Known>(
    alloc: Global,
    n: u128,
    variables: &[u32],
    known: &K,
    rule: u32,
) -> Result<Bound, Memory>
    requires { All (λ v. v < 2 ^ 31) variables.now }
    ensures { IfOk result (λ b. bound_of b ≡ ProductOf (Part (Constant n) (parts_for (sizes_after (K.table
        known.now).size rule) variables.now))) }
{
    let mut factors = Vec::new(alloc);
    factors.push(Bound::Const(n))?;
    for variable in variables {
        let size = variable_size(alloc, known, rule, *variable)?;
        factors.push(size)?;
    }
    Ok(Bound::Prod(factors))
}

// The absolute coefficient of a monomial times the sizes of its variables.
fn monomial_bound<K: Known>(
    alloc: Global,
    m: &Monomial,
    known: &K,
    rule: u32,
) -> Result<Bound, Memory>
    requires { HasFewVariables m.now }
    ensures { IfOk result (λ b. bound_of b ≡ monomial_bound_of (sizes_after (K.table known.now).size rule)
        (monomial_of m.now)) }
{
    times_sizes(alloc, m.coef.unsigned_abs(), &m.vars, known, rule)
}

// The sum of monomials with absolute coefficients, in order.
#[tactic(auto, using(crate::proofs::Spreads::monomial_pushed, crate::proofs::Spreads::monomials_whole))]
fn sum_of_monomials<K: Known>(
    alloc: Global,
    monomials: &[Monomial],
    known: &K,
    rule: u32,
) -> Result<Bound, Memory>
    requires { All HasFewVariables monomials.now }
    ensures { IfOk result (λ b. bound_of b ≡ SumOf (monomial_parts (map monomial_of monomials.now) (sizes_after
        (K.table known.now).size rule))) }
{
    let mut parts = Vec::new(alloc);
    for monomial in monomials {
        let part = monomial_bound(alloc, monomial, known, rule)?;
        parts.push(part)?;
    }
    Ok(Bound::Sum(parts))
}

// A polynomial with absolute coefficients as a bound; where there is none, 0.
fn polynomial_bound<K: Known>(
    alloc: Global,
    poly: Option<&Poly>,
    known: &K,
    rule: u32,
) -> Result<Bound, Memory>
    requires { HasFewPlaces poly }
    ensures { IfOk result (λ b. bound_of b ≡ polynomial_bound_of (optional_poly poly.entry) (sizes_after (K.table
        known.now).size rule)) }
{
    match poly {
        Some(q) => sum_of_monomials(alloc, &q.terms, known, rule),
        None => Ok(Bound::Const(0)),
    }
}

/// A side bound as a bound at the sizes after a rule, without the places that are members. An unknown size counts as
/// 0.
///
/// # Errors
///
/// `Memory` where an allocation fails.
pub fn composed_side_bound<K: Known>(
    alloc: Global,
    side_bound: &SideBound,
    poly: Option<&Poly>,
    known: &K,
    rule: u32,
    members: &[Member],
) -> Result<Bound, Memory>
    requires readable { IsReadable side_bound.now }
    requires few { HasFewPlaces poly }
    ensures { IfOk result (λ b. bound_of b ≡ offset_of (optional_poly poly.entry) (side_bound_of side_bound.now) (is_member (map
        member_of members.now) rule) (sizes_after (K.table known.now).size rule)) }
{
    match side_bound {
        SideBound::Linear {
            den,
            coefs,
            constant,
            ..
        } => form_bound(alloc, coefs, *constant, *den, known, rule, members),
        SideBound::Poly => polynomial_bound(alloc, poly, known, rule),
    }
}

// The maximum of both side bounds at the sizes after a rule.
fn both_side_bounds<K: Known>(
    alloc: Global,
    local: &LocalBound,
    poly: Option<&Poly>,
    known: &K,
    rule: u32,
) -> Result<Bound, Memory>
    requires up { IsReadable local.now.up }
    requires low { IsReadable local.now.low }
    requires few { HasFewPlaces poly }
    ensures { IfOk result (λ b. bound_of b ≡ both_side_bounds_of (optional_poly poly.entry) (local_of local.now) (K.table
        known.now).size rule) }
{
    let mut parts = Vec::new(alloc);
    let up = composed_side_bound(alloc, &local.up, poly, known, rule, &[])?;
    parts.push(up)?;
    let low = composed_side_bound(alloc, &local.low, poly, known, rule, &[])?;
    parts.push(low)?;
    Ok(Bound::Max(parts))
}

// The size that a spread composes: the maximum over the rules that can come before.
fn composed_size<K: Known>(
    alloc: Global,
    local: &LocalBound,
    poly: Option<&Poly>,
    before: &[u32],
    known: &K,
) -> Result<Bound, Memory>
    requires up { IsReadable local.now.up }
    requires low { IsReadable local.now.low }
    requires few { HasFewPlaces poly }
    ensures { IfOk result (λ b. bound_of b ≡ spread_over (optional_poly poly.entry) (local_of local.now) (K.table
        known.now).size before.now) }
{
    let mut parts = Vec::new(alloc);
    for rule in before {
        let part = both_side_bounds(alloc, local, poly, known, *rule)?;
        parts.push(part)?;
    }
    Ok(Bound::Max(parts))
}

/// The size that a spread node states, rewritten, or its number of nodes if it is too large: the maximum, over the
/// rules that can come before in order, of both side bounds at the sizes after that rule. `poly` is the polynomial of
/// the update, if it has degree 2 or more. An unknown size counts as 0. It is measured before it is rewritten.
///
/// # Errors
///
/// `Memory` where an allocation fails.
pub fn spread_size<K: Known>(
    alloc: Global,
    local: &LocalBound,
    poly: Option<&Poly>,
    before: &[u32],
    known: &K,
) -> Result<RewriteResult, Memory>
    requires up { IsReadable local.now.up }
    requires low { IsReadable local.now.low }
    requires few { HasFewPlaces poly }
    ensures { IfOk result (λ w. answer_of w ≡ rewritten_within (spread_over (optional_poly poly.entry) (local_of
        local.now) (K.table known.now).size before.now)) }
{
    let composed = composed_size(alloc, local, poly, before, known)?;
    rewrite_within(alloc, &composed)
}

/// The law that the size of a spread is the maximum over the rules that can come before its rule, with the polynomial
/// of its place. It has no code: its contract is the law.
pub fn spreads_are_over_what_comes_before()
    ensures { SpreadsAreOverWhatComesBefore }
{}
