//! Rewrites bounds within the limits of nodes and levels.

ghost use Rattle.std.specs.Prelude.{◌≡◌, false, IfOk};
ghost use Rattle.bound_expr.specs.model.Bounds.{IsBased};
ghost use Rattle.bound_expr.specs.Numbers.{HasTidyNumbers};
ghost use Rattle.bound_expr.specs.Tidy.{IsTidy};
ghost use Rattle.bound_expr.specs.Measure.{is_large};
ghost use Rattle.bound_expr.specs.Views.{bound_of};
ghost use Rattle.bound_table.specs.Laws.{HasValueOf, ReadsNoMore, KeepsNumbers};
ghost use Rattle.bound_table.specs.RewriteResult.{answer_of, unless_large as unless_large_of, rewritten_within, WhereFits};

use crate::rewriting::rewrite;
use bound_expr::{Bound, Memory};
use std::alloc::Global;

/// The result of rewriting within the limits.
#[derive(Debug, PartialEq, Eq, Drop)]
pub enum RewriteResult {
    /// The rewritten bound. Neither it nor the bound before is large.
    Rewritten(Bound),
    /// The bound, or its rewriting, is large.
    Large {
        /// The number of nodes: of the bound before rewriting if that is large, and else of the result.
        nodes: u64,
    },
}

/// The bound `b` rewritten by the table in force, where neither it nor the outcome is large.
///
/// A bound that has more nodes than `NODE_LIMIT`, or more levels than `DEPTH_LIMIT`, isn't rewritten.
///
/// # Errors
///
/// `Memory` where an allocation fails.
pub fn rewrite_within(alloc: Global, b: &Bound) -> Result<RewriteResult, Memory>
    ensures outcome { IfOk result (λ w. answer_of w ≡ rewritten_within (bound_of b.now)) }

    // A rewritten bound isn't large, and has all properties that `rewrite` ensures.
    ensures small { IfOk result (λ w. WhereFits (answer_of w) (λ r. is_large r ≡ false)) }
    ensures value { IsBased (bound_of b.now) → IfOk result
        (λ w. WhereFits (answer_of w) (λ r. HasValueOf r (bound_of b.now))) }
    ensures reads { IfOk result (λ w. WhereFits (answer_of w) (λ r. ReadsNoMore r (bound_of b.now))) }
    ensures numbers { IfOk result (λ w. WhereFits (answer_of w) (λ r. KeepsNumbers r (bound_of b.now))) }
    ensures tidy { HasTidyNumbers (bound_of b.now) → IfOk result (λ w. WhereFits (answer_of w) (λ r. IsTidy r)) }
{
    measured_first(alloc, b)
}

// The answer, where a large bound is recognised by its measure before it is rewritten.
#[tactic(auto, using(crate::proofs::Loops::views), unfolding(crate::specs::RewriteResult::rewritten_within))]
fn measured_first(alloc: Global, b: &Bound) -> Result<RewriteResult, Memory>
    ensures { IfOk result (λ w. answer_of w ≡ rewritten_within (bound_of b.now)) }
{
    if b.is_large() {
        let (nodes, _) = b.measure();
        return Ok(RewriteResult::Large { nodes });
    }
    let outcome = rewrite(alloc, b)?;
    Ok(unless_large(outcome))
}

// A bound that has been rewritten, unless it is large.
fn unless_large(bound: Bound) -> RewriteResult
    ensures { answer_of result ≡ unless_large_of (bound_of bound) }
{
    if bound.is_large() {
        let (nodes, _) = bound.measure();
        return RewriteResult::Large { nodes };
    }
    RewriteResult::Rewritten(bound)
}
