//! Joins like terms of a sum: those that differ in their constant factors alone.

ghost use Rattle.std.specs.Prelude.{◌≡◌, ◌++◌, ◌∷◌, [], ◌^◌, IfOk, OnOk};
ghost use Rattle.bound_expr.specs.Views.{bound_of, bounds_of};
ghost use Rattle.bound_expr.specs.Capped.{capped};
ghost use Rattle.bound_expr.specs.model.Bounds.{Constant};
ghost use Rattle.bound_table.specs.Terms.{factors_of, after_constant, begins_with_constant};
ghost use Rattle.bound_table.specs.Likes.{is_like as are_like, constants_total as total_of, times};
ghost use Rattle.bound_table.specs.Likes.{joined_list, likes_joined as likes_joined_of};

use crate::joining::runs_joined;
use crate::kinds::{Joining, Kind};
use crate::order::factor_lists;
use crate::terms::{is_const, term_of};
use bound_expr::{Bound, CONSTANT_LIMIT, Memory, capped_add};
use std::alloc::Global;
use std::cmp::Ordering;

// The like parts of a sum joined; the parts of another node as they are.
pub(crate) fn likes_joined(
    alloc: Global,
    kind: Kind,
    parts: Vec<Bound>,
) -> Result<Vec<Bound>, Memory>
    ensures { IfOk result (λ r. bounds_of r.items ≡ likes_joined_of kind (bounds_of parts.items)) }
{
    match kind {
        Kind::AsSum => runs_joined(alloc, Joining::AsLikes, parts),
        Kind::AsProd | Kind::AsMax => Ok(parts),
    }
}

// Whether two parts have the same factors, at least one.
pub(crate) fn is_like(part: &Bound, other: &Bound) -> bool
    ensures { result ≡ are_like (bound_of part.now) (bound_of other.now) }
{
    let first = term_of(part);
    let second = term_of(other);
    !first.factors.is_empty() && factor_lists(first.factors, second.factors) == Ordering::Equal
}

// Appends a run to the finished parts: as one part if it has two or more and their constants add up to at most 2^127-1.
pub(crate) fn push_likes(
    alloc: Global,
    run: Vec<Bound>,
    done: &mut Vec<Bound>,
) -> Result<(), Memory>
    ensures { OnOk result (bounds_of done.new.items ≡ bounds_of done.old.items ++ joined_list (bounds_of run.items)) }
{
    let mut run = run;
    if run.len() < 2 {
        return done.append(&mut run);
    }
    let total = constants_total(&run);
    if total > CONSTANT_LIMIT {
        return done.append(&mut run);
    }
    let first = run.remove(0);
    let joined = with_constant(alloc, total, first)?;
    done.push(joined)?;
    Ok(())
}

// The sum of the constants of the parts, or 2^127 where it is greater.
fn constants_total(parts: &[Bound]) -> u128
    ensures { result ≡ capped (total_of (bounds_of parts.now)) }
{
    let mut total = 0u128;
    for part in parts {
        total = capped_add(total, term_of(part).constant);
    }
    total
}

// A constant times the factors of a part.
fn with_constant(alloc: Global, constant: u128, part: Bound) -> Result<Bound, Memory>
    ensures { IfOk result (λ r. bound_of r ≡ times constant (factors_of (bound_of part))) }
{
    let mut factors = factors_from(alloc, part)?;
    factors.insert(0, Bound::Const(constant))?;
    Ok(Bound::Prod(factors))
}

// The factors of a part.
fn factors_from(alloc: Global, part: Bound) -> Result<Vec<Bound>, Memory>
    ensures { IfOk result (λ r. bounds_of r.items ≡ factors_of (bound_of part)) }
{
    match part {
        Bound::Const(_) => Ok(Vec::new(alloc)),
        Bound::Prod(parts) => Ok(without_leading(parts)),
        other => Ok(vec![in alloc; other]?),
    }
}

// The factors after a leading constant.
fn without_leading(parts: Vec<Bound>) -> Vec<Bound>
    ensures { bounds_of result.items ≡ after_constant (bounds_of parts.items) }
{
    let mut parts = parts;
    if starts_with_constant(&parts) {
        let _ = parts.remove(0);
    }
    parts
}

fn starts_with_constant(parts: &[Bound]) -> bool
    ensures { result ≡ begins_with_constant (bounds_of parts.now) }
{
    match parts.split_first() {
        Some((first, _)) => is_const(first),
        None => false,
    }
}
