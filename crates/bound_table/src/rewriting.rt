//! Rewrites bounds by a table of cases, in passes.

ghost use Rattle.std.specs.Prelude.{◌≡◌, IfOk};
ghost use Rattle.bound_expr.specs.model.Bounds.{IsBased};
ghost use Rattle.bound_expr.specs.Numbers.{HasTidyNumbers};
ghost use Rattle.bound_expr.specs.Tidy.{IsTidy};
ghost use Rattle.bound_table.specs.InForce.{rewritten as rewritten_of, small_cases, large_cases, IsInForce};
ghost use Rattle.bound_table.specs.Laws.{HasValueOf, ReadsNoMore, KeepsNumbers, IsTidying};
ghost use Rattle.bound_expr.specs.Views.{bound_of, bounds_of, parts_of};
ghost use Rattle.bound_table.specs.Rewriting.{at_parts as made_of_parts, at_power as made_of_power};
ghost use Rattle.bound_table.specs.Rewriting.{at_node as made_of_node, at_node_all};
ghost use Rattle.bound_table.specs.Rewriting.{parts_passed, one_pass, one_pass_each, simplified};

use crate::distribution::distributed;
use crate::dominance::dominant;
use crate::folding::{folded, simple, spliced, whole, without_neutral, zeroed};
use crate::kinds::{Case, Cases, Kind, LARGE, SMALL};
use crate::likes::likes_joined;
use crate::powers::{evaluated, powers_merged, shifted};
use crate::sorting::sort;
use crate::structure::is_same;
use bound_expr::{Bound, Memory};
use std::alloc::Global;

// How many passes are made at most.
const PASS_LIMIT: u32 = 16;

// Makes the arms of a match on the case: each case by its name, with its result at the node; after the semicolon, the
// result of the other cases.
macro_rules! cases {
    ($case:expr; $($name:ident => $outcome:expr),+ $(,)?) => {
        match $case {
            $(Case::$name => $outcome),+
        }
    };
    ($case:expr; $($name:ident => $outcome:expr),+; $other:expr) => {
        match $case {
            $(Case::$name => $outcome,)+
            _ => $other,
        }
    };
}

/// The bound `b` rewritten by a table of cases.
///
/// A pass builds the bound again from the leaves up, and applies the cases of the table to each node, once each, in
/// order, each to the result of the one before. Passes are repeated while they change something, at most sixteen times.
///
/// # Errors
///
/// `Memory` where an allocation fails.
pub fn simplify<const N: usize>(alloc: Global, cases: &Cases<N>, b: &Bound) -> Result<Bound, Memory>
    ensures outcome { IfOk result (λ r. bound_of r ≡ simplified cases.now.list (bound_of b.now)) }

    // The value is unchanged, no further variable is read, and a table that begins with Flat and ends with Few makes
    // the bound tidy.
    ensures value { IsBased (bound_of b.now) → IfOk result (λ r. HasValueOf (bound_of r) (bound_of b.now)) }
    ensures reads { IfOk result (λ r. ReadsNoMore (bound_of r) (bound_of b.now)) }
    ensures numbers { IfOk result (λ r. KeepsNumbers (bound_of r) (bound_of b.now)) }
    ensures tidy { IsTidying cases.now.list → HasTidyNumbers (bound_of b.now) → IfOk result (λ r. IsTidy (bound_of r)) }
{
    rewritten(alloc, &cases.list, b)
}

/// The bound `b` rewritten by the table in force, the twelve cases of `LARGE`.
///
/// # Errors
///
/// `Memory` where an allocation fails.
pub fn rewrite(alloc: Global, b: &Bound) -> Result<Bound, Memory>
    ensures outcome { IfOk result (λ r. bound_of r ≡ rewritten_of (bound_of b.now)) }
    ensures table { IfOk result (λ r. bound_of r ≡ simplified large_cases (bound_of b.now)) }
    ensures value { IsBased (bound_of b.now) → IfOk result (λ r. HasValueOf (bound_of r) (bound_of b.now)) }
    ensures reads { IfOk result (λ r. ReadsNoMore (bound_of r) (bound_of b.now)) }
    ensures numbers { IfOk result (λ r. KeepsNumbers (bound_of r) (bound_of b.now)) }
    ensures tidy { HasTidyNumbers (bound_of b.now) → IfOk result (λ r. IsTidy (bound_of r)) }
{
    simplify(alloc, &LARGE, b)
}

/// The law that the public tables list the cases of the definitions, in order, and that `LARGE` is the table in force,
/// so `rewrite` is `simplify` with it. It does nothing.
pub fn tables_are_as_defined()
    ensures small { SMALL.list ≡ small_cases }
    ensures large { LARGE.list ≡ large_cases }
    ensures in_force { IsInForce LARGE.list }
{}

// As many passes as change something, at most sixteen.
fn rewritten(alloc: Global, cases: &[Case], b: &Bound) -> Result<Bound, Memory>
    ensures { IfOk result (λ r. bound_of r ≡ simplified cases.now (bound_of b.now)) }
{
    let mut now = b.copied(alloc)?;
    for _ in 0..PASS_LIMIT {
        let next = pass(alloc, cases, &now)?;
        if is_same(&next, &now) {
            return Ok(next);
        }
        now = next;
    }
    Ok(now)
}

// One pass: the bound built again from the leaves up.
#[cycle(pass)]
fn pass(alloc: Global, cases: &[Case], bound: &Bound) -> Result<Bound, Memory>
    ensures { IfOk result (λ r. bound_of r ≡ one_pass cases.now (bound_of bound.now)) }
{
    let node = with_parts_passed(alloc, cases, bound)?;
    at_cases(alloc, cases, node)
}

// A node with its parts rewritten.
#[cycle(pass)]
#[tactic(auto, using(crate::proofs::Loops::views), unfolding(crate::specs::Rewriting::parts_passed))]
fn with_parts_passed(alloc: Global, cases: &[Case], bound: &Bound) -> Result<Bound, Memory>
    ensures { IfOk result (λ r. bound_of r ≡ parts_passed cases.now (bound_of bound.now)) }
{
    match bound {
        Bound::Const(c) => Ok(Bound::Const(*c)),
        Bound::Var(i) => Ok(Bound::Var(*i)),
        Bound::Sum(parts) => Ok(Bound::Sum(pass_each(alloc, cases, parts)?)),
        Bound::Prod(parts) => Ok(Bound::Prod(pass_each(alloc, cases, parts)?)),
        Bound::Max(parts) => Ok(Bound::Max(pass_each(alloc, cases, parts)?)),
        Bound::Power(base, exponent) => Ok(Bound::Power(
            *base,
            Box::new(alloc, pass(alloc, cases, exponent)?)?,
        )),
    }
}

// A pass over each of the parts, in order.
#[cycle(pass)]
#[tactic(auto, using(crate::proofs::Passes::one_pass_each_steps), unfolding(crate::specs::Rewriting::parts_passed))]
fn pass_each(alloc: Global, cases: &[Case], parts: &[Bound]) -> Result<Vec<Bound>, Memory>
    ensures { IfOk result (λ r. parts_of (bounds_of r.items) ≡ one_pass_each cases.now (parts_of (bounds_of parts.now))) }
{
    let mut outcomes = Vec::new(alloc);
    for part in parts {
        outcomes.push(pass(alloc, cases, part)?)?;
    }
    Ok(outcomes)
}

// The cases applied to a node, once each, in order, each to the result of the one before.
fn at_cases(alloc: Global, cases: &[Case], node: Bound) -> Result<Bound, Memory>
    ensures { IfOk result (λ r. bound_of r ≡ at_node_all cases.now (bound_of node)) }
{
    let mut now = node;
    for case in cases {
        now = at_node(alloc, *case, now)?;
    }
    Ok(now)
}

// A case applied to a node.
#[tactic(auto, using(crate::proofs::Loops::views), unfolding(crate::specs::Rewriting::at_node))]
fn at_node(alloc: Global, case: Case, node: Bound) -> Result<Bound, Memory>
    ensures { IfOk result (λ r. bound_of r ≡ made_of_node case (bound_of node)) }
{
    match node {
        Bound::Sum(parts) => at_parts(alloc, case, Kind::AsSum, parts),
        Bound::Prod(parts) => at_parts(alloc, case, Kind::AsProd, parts),
        Bound::Max(parts) => at_parts(alloc, case, Kind::AsMax, parts),
        Bound::Const(c) => Ok(Bound::Const(c)),
        Bound::Var(i) => Ok(Bound::Var(i)),
        Bound::Power(base, exponent) => at_power(alloc, case, base, exponent),
    }
}

// A case applied to a power.
fn at_power(alloc: Global, case: Case, base: u64, exponent: Box<Bound>) -> Result<Bound, Memory>
    ensures { IfOk result (λ r. bound_of r ≡ made_of_power case base (bound_of exponent.value)) }
{
    cases! { case;
        PowerConst => Ok(evaluated(base, exponent)),
        PowerShift => shifted(alloc, base, exponent);
        Ok(Bound::Power(base, exponent))
    }
}

// A case applied to a node of a kind with these parts.
fn at_parts(alloc: Global, case: Case, kind: Kind, parts: Vec<Bound>) -> Result<Bound, Memory>
    ensures { IfOk result (λ r. bound_of r ≡ made_of_parts case kind (bounds_of parts.items)) }
{
    cases! { case;
        Flat => Ok(whole(kind, spliced(alloc, kind, parts)?)),
        FoldConst => Ok(whole(kind, folded(alloc, kind, parts)?)),
        ZeroProduct => Ok(zeroed(kind, parts)),
        Neutral => Ok(whole(kind, without_neutral(alloc, kind, parts)?)),
        PowerConst => Ok(whole(kind, parts)),
        PowerShift => Ok(whole(kind, parts)),
        PowerMerge => Ok(whole(kind, powers_merged(alloc, kind, parts)?)),
        Distribute => distributed(alloc, kind, parts),
        Order => Ok(whole(kind, sort(alloc, kind, parts)?)),
        Like => Ok(whole(kind, likes_joined(alloc, kind, parts)?)),
        Dominate => Ok(whole(kind, dominant(kind, parts))),
        Few => Ok(simple(kind, parts)),
    }
}
