//! Multiplies a product out over its first sum.

ghost use Rattle.std.specs.Prelude.{◌≡◌, ◌-◌, ◌+◌, ◌^◌, ◌++◌, ◌==◌, min, length, true, false};
ghost use Rattle.std.specs.Prelude.{IfOk, OnOk, MatchOption};
ghost use Rattle.bound_expr.specs.Views.{bound_of, bounds_of, parts_of};
ghost use Rattle.bound_expr.specs.Capped.{capped};
ghost use Rattle.bound_expr.specs.Measure.{node_count, node_count_of_all};
ghost use Rattle.bound_table.specs.declared.kinds.Kind.TheVariants.{AsSum, AsProd};
ghost use Rattle.bound_table.specs.Folding.{parts_of_kind};
ghost use Rattle.bound_table.specs.Kinds.{whole as node_of};
ghost use Rattle.bound_table.specs.Distribution.{width as width_of, all_widths as all_widths_of, IsSplit, has_sum};
ghost use Rattle.bound_table.specs.Distribution.{product_or_single as product_or_single_of, in_place as in_place_of};
ghost use Rattle.bound_table.specs.Distribution.{each_in_place, multiplied_out as multiplied_out_of};
ghost use Rattle.bound_table.specs.Distribution.{is_multiplied_out, distributed as distributed_of};

use crate::folding::whole;
use crate::kinds::Kind;
use crate::terms::{is_sum, terms_of};
use bound_expr::{Bound, Memory, NODE_LIMIT, capped_multiply, nodes_in_all};
use std::alloc::Global;
use std::slice;

// The maximum product of the numbers of parts of the sums among the factors.
const WIDTH_LIMIT: u128 = 64;

// The factors of a product, split at the first sum among them.
#[derive(Drop)]
struct Split<'a> {
    before: &'a [Bound],
    parts: &'a [Bound],
    after: &'a [Bound],
}

// A product multiplied out over its first sum, in place; any other node unchanged.
pub(crate) fn distributed(alloc: Global, kind: Kind, parts: Vec<Bound>) -> Result<Bound, Memory>
    ensures { IfOk result (λ r. bound_of r ≡ distributed_of kind (bounds_of parts.items)) }
{
    match kind {
        Kind::AsProd => product_distributed(alloc, parts),
        Kind::AsSum | Kind::AsMax => Ok(whole(kind, parts)),
    }
}

// A product multiplied out, if it has a sum and the result is within the limits; else the product unchanged.
fn product_distributed(alloc: Global, parts: Vec<Bound>) -> Result<Bound, Memory>
    ensures { IfOk result (λ r. bound_of r ≡ distributed_of AsProd (bounds_of parts.items)) }
{
    match multiplied_out(alloc, &parts)? {
        Some(outcome) => Ok(outcome),
        None => Ok(Bound::Prod(parts)),
    }
}

// The product multiplied out, or none if a limit forbids it. No factor is copied before both limits have been checked.
fn multiplied_out(alloc: Global, parts: &[Bound]) -> Result<Option<Bound>, Memory>
    ensures { IfOk result (λ o. MatchOption o (is_multiplied_out (bounds_of parts.now) ≡ false)
        (λ r. (is_multiplied_out (bounds_of parts.now) ≡ true)
        × (bound_of r ≡ multiplied_out_of (bounds_of parts.now)))) }
{
    let Some(split) = split_at_sum(parts) else {
        return Ok(None);
    };
    if all_widths(parts) > WIDTH_LIMIT {
        return Ok(None);
    }
    if nodes_in_places(split.before, split.parts, split.after) > NODE_LIMIT {
        return Ok(None);
    }
    Ok(Some(sum_in_places(alloc, split.before, split.parts, split.after)?))
}

// The factors before and after the first sum, and the sum's parts, if there is a sum.
fn split_at_sum(parts: &[Bound]) -> Option<Split<'_>>
    ensures { MatchOption result (has_sum (bounds_of parts.now) ≡ false) (λ s. IsSplit (bounds_of parts.now)
        (bounds_of s.before.now) (bounds_of s.parts.now) (bounds_of s.after.now)) }
{
    for position in 0..parts.len() {
        let factor = &parts[position];
        if is_sum(factor) {
            return Some(Split {
                before: &parts[..position],
                parts: terms_of(factor),
                after: &parts[position + 1..],
            });
        }
    }
    None
}

// The product of the numbers of parts of all the sums among the factors, or 2^127 where that is more.
fn all_widths(factors: &[Bound]) -> u128
    ensures { result ≡ capped (all_widths_of (bounds_of factors.now)) }
{
    let mut product = 1u128;
    for factor in factors {
        product = capped_multiply(product, width(factor));
    }
    product
}

// The number of parts of a sum; 1 for any other factor.
fn width(factor: &Bound) -> u128
    ensures { result ≡ width_of (bound_of factor.now) }
{
    match factor {
        Bound::Sum(parts) => parts.len() as u128,
        Bound::Const(_) | Bound::Var(_) | Bound::Prod(_) | Bound::Max(_) | Bound::Power(_, _) => 1,
    }
}

// The number of nodes of the sum of the products with each part in the sum's place, or the maximum number of its type.
fn nodes_in_places(before: &[Bound], parts: &[Bound], after: &[Bound]) -> u64
    ensures { result ≡ min (node_count (node_of AsSum (each_in_place (bounds_of before.now) (bounds_of after.now)
        (bounds_of parts.now)))) (2 ^ 64 - 1) }
{
    let others = nodes_in_all(before).saturating_add(nodes_in_all(after));
    let mut nodes = 1u64;
    for part in parts {
        let product = nodes_in_place(before, part, after, others);
        nodes = nodes.saturating_add(product);
    }
    nodes
}

// The number of nodes of the product with the part in the sum's place, where the other factors have this many nodes.
fn nodes_in_place(before: &[Bound], part: &Bound, after: &[Bound], others: u64) -> u64
    requires { others ≡ min (node_count_of_all (parts_of (bounds_of before.now))
        + node_count_of_all (parts_of (bounds_of after.now))) (2 ^ 64 - 1) }
    ensures { result ≡ min (node_count (in_place_of (bounds_of before.now) (bounds_of after.now) (bound_of part.now)))
        (2 ^ 64 - 1) }
{
    let factors = factors_of(part);
    let nodes = others.saturating_add(nodes_in_all(factors));
    if is_single(before, factors, after) {
        return nodes;
    }
    nodes.saturating_add(1)
}

// The factors of a product; any other bound is its own only factor.
fn factors_of(part: &Bound) -> &[Bound]
    ensures { bounds_of result.now ≡ parts_of_kind AsProd (bound_of part.now) }
{
    match part {
        Bound::Prod(factors) => factors,
        Bound::Const(_) | Bound::Var(_) | Bound::Sum(_) | Bound::Max(_) | Bound::Power(_, _) =>
            slice::from_ref(part),
    }
}

// Whether the three lists have one factor in all.
fn is_single(before: &[Bound], factors: &[Bound], after: &[Bound]) -> bool
    ensures { result ≡ (length (bounds_of before.now ++ (bounds_of factors.now ++ bounds_of after.now)) == 1) }
{
    let others = before.len().saturating_add(after.len());
    factors.len().saturating_add(others) == 1
}

// The sum, over the parts, of the product with that part in the sum's place.
fn sum_in_places(
    alloc: Global,
    before: &[Bound],
    parts: &[Bound],
    after: &[Bound],
) -> Result<Bound, Memory>
    ensures { IfOk result (λ r. bound_of r ≡ node_of AsSum (each_in_place (bounds_of before.now) (bounds_of after.now)
        (bounds_of parts.now))) }
{
    let mut products = Vec::new(alloc);
    for part in parts {
        products.push(in_place(alloc, before, part, after)?)?;
    }
    Ok(Bound::Sum(products))
}

// The product with the part in the sum's place.
fn in_place(alloc: Global, before: &[Bound], part: &Bound, after: &[Bound]) -> Result<Bound, Memory>
    ensures { IfOk result (λ r. bound_of r ≡ in_place_of (bounds_of before.now) (bounds_of after.now)
        (bound_of part.now)) }
{
    let mut factors = Vec::new(alloc);
    push_copies(alloc, before, &mut factors)?;
    push_copies(alloc, factors_of(part), &mut factors)?;
    push_copies(alloc, after, &mut factors)?;
    Ok(product_or_single(factors))
}

// Appends copies of bounds.
fn push_copies(alloc: Global, bounds: &[Bound], copies: &mut Vec<Bound>) -> Result<(), Memory>
    ensures { OnOk result (bounds_of copies.new.items ≡ bounds_of copies.old.items ++ bounds_of bounds.now) }
{
    for bound in bounds {
        copies.push(bound.copied(alloc)?)?;
    }
    Ok(())
}

// Factors as a product, a single one by itself.
fn product_or_single(factors: Vec<Bound>) -> Bound
    ensures { bound_of result ≡ product_or_single_of (bounds_of factors.items) }
{
    if factors.len() != 1 {
        return Bound::Prod(factors);
    }
    let mut factors = factors;
    factors.remove(0)
}
