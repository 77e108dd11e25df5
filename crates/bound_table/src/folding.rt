//! The simple cases: flattens nested nodes, folds constants, and drops zeros, neutral parts and needless nodes.

ghost use Rattle.std.specs.Prelude.{◌≡◌, ◌++◌, ◌∷◌, [], IfOk, OnOk, MatchResult};
ghost use Rattle.bound_expr.specs.Views.{bound_of, bounds_of};
ghost use Rattle.bound_expr.specs.Capped.{capped};
ghost use Rattle.bound_table.specs.Kinds.{whole as node_of, unit_of, joined as joined_of, all_joined};
ghost use Rattle.bound_table.specs.Kinds.{is_zero as is_nothing};
ghost use Rattle.bound_table.specs.Folding.{parts_of_kind, total_with, spliced as spliced_of, constants_in};
ghost use Rattle.bound_table.specs.Folding.{without_constants};
ghost use Rattle.bound_table.specs.Folding.{with_one_constant as one_constant_of, folded as folded_of};
ghost use Rattle.bound_table.specs.Folding.{zeroed as zeroed_of, is_neutral as is_unit};
ghost use Rattle.bound_table.specs.Folding.{without_neutral as without_units, simple as simple_of};

use crate::counting::{has, how_many};
use crate::kinds::{Counted, Kind};
use crate::terms::is_const;
use bound_expr::{Bound, CAP, CONSTANT_LIMIT, Memory, capped_add, capped_multiply};
use std::alloc::Global;

// The node of a kind with these parts.
pub(crate) fn whole(kind: Kind, parts: Vec<Bound>) -> Bound
    ensures { bound_of result ≡ node_of kind (bounds_of parts.items) }
{
    match kind {
        Kind::AsSum => Bound::Sum(parts),
        Kind::AsProd => Bound::Prod(parts),
        Kind::AsMax => Bound::Max(parts),
    }
}

// Each part of the kind replaced by its own parts, in place.
pub(crate) fn spliced(alloc: Global, kind: Kind, parts: Vec<Bound>) -> Result<Vec<Bound>, Memory>
    ensures { IfOk result (λ r. bounds_of r.items ≡ spliced_of kind (bounds_of parts.items)) }
{
    let mut flat = Vec::new(alloc);
    for part in parts {
        push_spread(kind, part, &mut flat)?;
    }
    Ok(flat)
}

// Appends a part, or its own parts in its place if it is of the kind.
pub(crate) fn push_spread(kind: Kind, part: Bound, flat: &mut Vec<Bound>) -> Result<(), Memory>
    ensures { OnOk result (bounds_of flat.new.items ≡ bounds_of flat.old.items ++ parts_of_kind kind (bound_of part)) }
{
    match inner_parts(kind, part) {
        Ok(mut inner) => flat.append(&mut inner),
        Err(single) => {
            flat.push(single)?;
            Ok(())
        }
    }
}

// The parts of a node of the kind, or the bound itself where it is of another kind.
fn inner_parts(kind: Kind, part: Bound) -> Result<Vec<Bound>, Bound>
    ensures { MatchResult result (λ inner. parts_of_kind kind (bound_of part) ≡ bounds_of inner.items)
        (λ single. parts_of_kind kind (bound_of part) ≡ bound_of single ∷ []) }
{
    match (kind, part) {
        (Kind::AsSum, Bound::Sum(inner)) => Ok(inner),
        (Kind::AsProd, Bound::Prod(inner)) => Ok(inner),
        (Kind::AsMax, Bound::Max(inner)) => Ok(inner),
        (_, single) => Err(single),
    }
}

// Two or more constants become one, at the position of the first, if the result is at most 2^127-1.
pub(crate) fn folded(alloc: Global, kind: Kind, parts: Vec<Bound>) -> Result<Vec<Bound>, Memory>
    ensures { IfOk result (λ r. bounds_of r.items ≡ folded_of kind (bounds_of parts.items)) }
{
    if how_many(Counted::Constants, &parts) < 2 {
        return Ok(parts);
    }
    let total = constants_joined(kind, &parts);
    if total > CONSTANT_LIMIT {
        return Ok(parts);
    }
    with_one_constant(alloc, total, parts)
}

// The constants joined as the kind joins its parts, or 2^127 where that is more.
fn constants_joined(kind: Kind, parts: &[Bound]) -> u128
    ensures { result ≡ capped (all_joined kind (constants_in (bounds_of parts.now))) }
{
    let mut total = unit(kind);
    for part in parts {
        total = joined_with(kind, total, part);
    }
    total
}

// The total joined with a part, if the part is a constant.
fn joined_with(kind: Kind, total: u128, part: &Bound) -> u128
    ensures { result ≡ total_with kind total (bound_of part.now) }
{
    match part {
        Bound::Const(c) => joined(kind, total, *c),
        Bound::Var(_) | Bound::Sum(_) | Bound::Prod(_) | Bound::Max(_) | Bound::Power(_, _) =>
            total,
    }
}

pub(crate) fn unit(kind: Kind) -> u128
    ensures { result ≡ unit_of kind }
{
    match kind {
        Kind::AsProd => 1,
        Kind::AsSum | Kind::AsMax => 0,
    }
}

// Two numbers joined as the kind joins its parts, or 2^127 where that is more.
fn joined(kind: Kind, a: u128, b: u128) -> u128
    ensures { result ≡ capped (joined_of kind a b) }
{
    match kind {
        Kind::AsSum => capped_add(a, b),
        Kind::AsProd => capped_multiply(a, b),
        Kind::AsMax => a.max(b).min(CAP),
    }
}

// The parts with the constant in place of the first constant, and without the other constants.
fn with_one_constant(alloc: Global, constant: u128, parts: Vec<Bound>) -> Result<Vec<Bound>, Memory>
    ensures { IfOk result (λ r. bounds_of r.items ≡ one_constant_of constant (bounds_of parts.items)) }
{
    let mut kept = Vec::new(alloc);
    let mut inserted = false;
    for part in parts {
        if !is_const(&part) {
            kept.push(part)?;
        } else if !inserted {
            kept.push(Bound::Const(constant))?;
            inserted = true;
        }
    }
    Ok(kept)
}

// A product with a part 0 becomes 0.
pub(crate) fn zeroed(kind: Kind, parts: Vec<Bound>) -> Bound
    ensures { bound_of result ≡ zeroed_of kind (bounds_of parts.items) }
{
    match kind {
        Kind::AsProd => if has(Counted::Zeros, &parts) {
            Bound::Const(0)
        } else {
            Bound::Prod(parts)
        },
        Kind::AsSum => Bound::Sum(parts),
        Kind::AsMax => Bound::Max(parts),
    }
}

// The parts without those that are neutral: zeros of a sum or maximum, ones of a product.
pub(crate) fn without_neutral(
    alloc: Global,
    kind: Kind,
    parts: Vec<Bound>,
) -> Result<Vec<Bound>, Memory>
    ensures { IfOk result (λ r. bounds_of r.items ≡ without_units kind (bounds_of parts.items)) }
{
    let mut kept = Vec::new(alloc);
    for part in parts {
        if !is_neutral(kind, &part) {
            kept.push(part)?;
        }
    }
    Ok(kept)
}

// Whether a part is neutral in a node of the kind: it changes no value.
fn is_neutral(kind: Kind, part: &Bound) -> bool
    ensures { result ≡ is_unit kind (bound_of part.now) }
{
    match part {
        Bound::Const(c) => *c == unit(kind),
        Bound::Var(_) | Bound::Sum(_) | Bound::Prod(_) | Bound::Max(_) | Bound::Power(_, _) =>
            false,
    }
}

// A node without parts becomes its constant, and a node with a single part becomes that part.
pub(crate) fn simple(kind: Kind, parts: Vec<Bound>) -> Bound
    ensures { bound_of result ≡ simple_of kind (bounds_of parts.items) }
{
    if parts.is_empty() {
        return Bound::Const(unit(kind));
    }
    if parts.len() > 1 {
        return whole(kind, parts);
    }
    let mut parts = parts;
    parts.remove(0)
}
