//! What facts bound a polynomial by at the copies of a rule.

ghost use Rattle.std.specs.Prelude.{◌≡◌, map, option_map, IfOk};
ghost use Rattle.poly_terms.specs.Views.{poly_of};
ghost use Rattle.signed_bounds.specs.Views.{signed_of};
ghost use Rattle.potential_nodes.specs.Facts.{peak_bound as bound_of_peak};
ghost use Rattle.potential_nodes.specs.Lookup.{numbered as fact_numbered, is_there};
ghost use Rattle.potential_nodes.specs.PlainPeaks.{size_in, first_of_two};
ghost use Rattle.potential_types.specs.Views.{fact_view};
ghost use Rattle.program_claims.specs.Heads.{head_bound as bound_of_head, is_head_within as is_bounded_head};
ghost use Rattle.program_claims.specs.Heads.{are_heads_within as are_bounded_heads, are_heads_there as are_there};
ghost use Rattle.claims_check.specs.Tables.{IsKnown, zero_bound_if};

use crate::known::{Known, is_never};
use poly_terms::{Memory, Poly};
use potential_types::{SignedFact, peak_bound, size_bound};
use signed_bounds::Signed;
use signed_within::is_within;
use std::alloc::Global;

/// A polynomial that is a new value or its opposite, the place that gets this value, and what it is to be at most.
#[derive(Clone, Copy)]
pub(crate) struct Head<'a> {
    pub form: &'a Poly,
    /// The place, from 1 on.
    pub place: u32,
    pub bound: &'a Signed,
}

// The bound of a cited fact: of the peak of the polynomial, or else of the size of the place.
fn cited_bound<'f>(
    facts: &'f [SignedFact],
    head: Head,
    copy: u32,
    number: u32,
) -> Option<&'f Signed>
    ensures { option_map (λ b. signed_of b.now) result
        ≡ first_of_two (bound_of_peak (map fact_view facts.now) copy (poly_of head.entry.form.now) number)
        (size_in copy head.entry.place (fact_numbered (map fact_view facts.now) number)) }
{
    match peak_bound(facts, copy, head.form, number) {
        Some(bound) => Some(bound),
        None => size_bound(facts, copy, u64::from(head.place), number),
    }
}

// Whether the fact with a number bounds the polynomial at a copy by at most the bound.
fn is_head_within(
    alloc: Global,
    known: Known,
    head: Head,
    copy: u32,
    number: u32,
) -> Result<bool, Memory>
    requires { IsKnown known }
    ensures { IfOk result (λ r. r ≡ is_bounded_head (signed_of head.entry.bound.now)
        (bound_of_head (map fact_view known.entry.facts.now) (poly_of head.entry.form.now) head.entry.place copy
        number)) }
{
    if number == 0 {
        let is_high = is_zero_within(alloc, is_never(known, copy), head.bound)?;
        return Ok(is_high);
    }
    match cited_bound(known.facts, head, copy, number) {
        Some(bound) => {
            let is_high = is_within(alloc, 1, bound, head.bound)?;
            Ok(is_high)
        }
        None => Ok(false),
    }
}

// Whether a test says yes, and 0 is at most a bound.
fn is_zero_within(alloc: Global, test: bool, bound: &Signed) -> Result<bool, Memory>
    ensures { IfOk result (λ r. r ≡ is_bounded_head (signed_of bound.now) (zero_bound_if test)) }
{
    if test {
        let zero = Signed::Const(0);
        is_within(alloc, 1, &zero, bound)
    } else {
        Ok(false)
    }
}

// Whether the fact with a number bounds the polynomial at a copy.
fn is_head_there(known: Known, head: Head, copy: u32, number: u32) -> bool
    requires { IsKnown known }
    ensures { result ≡ is_there (bound_of_head (map fact_view known.entry.facts.now) (poly_of head.entry.form.now)
        head.entry.place copy number) }
{
    if number == 0 {
        is_never(known, copy)
    } else {
        cited_bound(known.facts, head, copy, number).is_some()
    }
}

// Whether the facts with these numbers bound the polynomial at each of these copies by at most the bound, one fact for
// each.
pub(crate) fn are_heads_within(
    alloc: Global,
    known: Known,
    head: Head,
    copies: &[u32],
    numbers: &[u32],
) -> Result<bool, Memory>
    requires { IsKnown known }
    ensures { IfOk result (λ r. r ≡ are_bounded_heads (map fact_view known.entry.facts.now)
        (poly_of head.entry.form.now) head.entry.place (signed_of head.entry.bound.now) copies.now numbers.now) }
{
    if copies.len() != numbers.len() {
        return Ok(false);
    }
    for i in 0..copies.len() {
        let is_high = is_head_within(alloc, known, head, copies[i], numbers[i])?;
        if !is_high {
            return Ok(false);
        }
    }
    Ok(true)
}

// Whether each of these facts bounds the polynomial at its copy, by whatever bound, one fact for each.
pub(crate) fn are_heads_there(known: Known, head: Head, copies: &[u32], numbers: &[u32]) -> bool
    requires { IsKnown known }
    ensures { result ≡ are_there (map fact_view known.entry.facts.now) (poly_of head.entry.form.now)
        head.entry.place copies.now numbers.now }
{
    if copies.len() != numbers.len() {
        return false;
    }
    for i in 0..copies.len() {
        let is_found = is_head_there(known, head, copies[i], numbers[i]);
        if !is_found {
            return false;
        }
    }
    true
}
