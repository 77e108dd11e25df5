//! The time bound that a ranking node composes.

ghost use Rattle.std.specs.Prelude.{◌≡◌, ◌-◌, ◌≤◌, ◌<◌, ◌^◌, ◌∷◌, [], length, map, All, IfOk, IfSome};
ghost use Rattle.poly_terms.specs.model.Bounds.{ProductOf, SumOf};
ghost use Rattle.poly_terms.specs.model.Paths.{target_of as target_of_rule};
ghost use Rattle.bound_expr.specs.Views.{bound_of, bounds_of, parts_of};
ghost use Rattle.bound_table.specs.RewriteResult.{answer_of, rewritten_within};
ghost use Rattle.its_model.specs.Views.{program_of};
ghost use Rattle.cert_program.specs.cert_rules.Composed.{rank_form as rank_form_of, both_parts, parts_for};
ghost use Rattle.cert_program.specs.cert_rules.Composed.{entry_bound, time_of};
ghost use Rattle.cert_types.specs.Views.{form_of, rank_of};
ghost use Rattle.cert_types.specs.Sizes.{form_found, IsShort};

use crate::entering::{entries, target_of};
use crate::form_lookup::{FormLookup, form_at, form_lookup_of};
use crate::known::Known;
use crate::places::{form_bound, known_or_zero};
use crate::rank::{Form, RankNode};
use bound_expr::{Bound, Memory};
use bound_table::{RewriteResult, rewrite_within};
use its_model::Program;
use std::alloc::Global;

/// The first form at a symbol, where there is one.
#[tactic(auto, using(crate::proofs::Rules::form_here, crate::proofs::Rules::form_passed))]
pub fn rank_form(forms: &[Form], symbol: Option<u32>) -> Option<&Form>
    ensures first { form_found result ≡ rank_form_of (map form_of forms.now) symbol }
    ensures few { All IsShort forms.now → IfSome result (λ f. IsShort f.now) }
{
    let Some(number) = symbol else {
        return None;
    };
    for form in forms {
        if form.symbol == number {
            return Some(form);
        }
    }
    None
}

// The product of two bounds.
fn product(alloc: Global, first: Bound, second: Bound) -> Result<Bound, Memory>
    ensures { IfOk result (λ b. bound_of b ≡ ProductOf (both_parts (bound_of first) (bound_of second))) }
{
    let mut factors = Vec::new(alloc);
    factors.push(first)?;
    factors.push(second)?;
    Ok(Bound::Prod(factors))
}

// The time of an entry, times the ranking function at the symbol that it leads to.
fn entry_part<K: Known>(
    alloc: Global,
    p: &Program,
    by: &FormLookup,
    known: &K,
    entry: u32,
) -> Result<Bound, Memory>
    requires over { 1 ≤ by.now.node.now.den }
    requires few { All IsShort by.now.node.now.forms.items }
    ensures { IfOk result (λ b. bound_of b ≡ entry_bound (program_of p.now) (rank_of by.now.node.now) (K.table
        known.now).time (K.table known.now).size entry) }
{
    let node = by.node;
    let time = known_or_zero(alloc, known.time(entry))?;
    let form = match form_at(by, target_of(p, entry)) {
        Some(f) => form_bound(alloc, &f.coefs, f.constant, node.den, known, entry, &[])?,
        None => form_bound(alloc, &[], 0, node.den, known, entry, &[])?,
    };
    product(alloc, time, form)
}

// The sum of the parts of these entries, in order.
fn sum_over<K: Known>(
    alloc: Global,
    p: &Program,
    by: &FormLookup,
    known: &K,
    entering: &[u32],
) -> Result<Bound, Memory>
    requires over { 1 ≤ by.now.node.now.den }
    requires few { All IsShort by.now.node.now.forms.items }
    ensures { IfOk result (λ b. bound_of b ≡ SumOf (parts_for (entry_bound (program_of p.now) (rank_of
        by.now.node.now) (K.table known.now).time (K.table known.now).size) entering.now)) }
{
    let mut parts = Vec::new(alloc);
    for entry in entering {
        let part = entry_part(alloc, p, by, known, *entry)?;
        parts.push(part)?;
    }
    Ok(Bound::Sum(parts))
}

// The time that a ranking node composes: the sum over the entries of its set. Its running time is near-linear in the
// rules and forms, except for looking up and copying known bounds.
fn composed_time<K: Known>(
    alloc: Global,
    p: &Program,
    node: &RankNode,
    known: &K,
) -> Result<Bound, Memory>
    requires rules { length p.now.rules.items < 2 ^ 32 - 1 }
    requires over { 1 ≤ node.now.den }
    requires few { All IsShort node.now.forms.items }
    ensures { IfOk result (λ b. bound_of b ≡ time_of (program_of p.now) (rank_of node.now) (K.table known.now).time
        (K.table known.now).size) }
{
    let entering = entries(alloc, p, &node.set)?;
    let by = form_lookup_of(alloc, node)?;
    sum_over(alloc, p, &by, known, &entering)
}

/// The time that a ranking node states, rewritten, or its number of nodes if it is too large: the sum, over the entries
/// of its set in order, of the entry's time times the ranking function at the symbol that it leads to. Unknown bounds
/// count as 0. The sum is measured before it is rewritten.
///
/// # Errors
///
/// `Memory` where an allocation fails.
pub fn rank_time<K: Known>(
    alloc: Global,
    p: &Program,
    node: &RankNode,
    known: &K,
) -> Result<RewriteResult, Memory>
    requires rules { length p.now.rules.items < 2 ^ 32 - 1 }
    requires over { 1 ≤ node.now.den }
    requires few { All IsShort node.now.forms.items }
    ensures { IfOk result (λ w. answer_of w ≡ rewritten_within (time_of (program_of p.now) (rank_of node.now) (K.table
        known.now).time (K.table known.now).size)) }
{
    let composed = composed_time(alloc, p, node, known)?;
    rewrite_within(alloc, &composed)
}
