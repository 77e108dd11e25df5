//! Whether the bounds of proofs are over the start arguments alone, so that the proofs can be printed.

ghost use Rattle.std.specs.Prelude.{◌≡◌, true, map};
ghost use Rattle.std.specs.List.{All};
ghost use Rattle.bound_expr.specs.Numbers.{ReadsBelow, AllReadBelow};
ghost use Rattle.bound_expr.specs.Views.{bound_of, bounds_of, parts_of};
ghost use Rattle.cert_types.specs.Views.{proof_of, uses_of};
ghost use Rattle.cert_text.specs.OverFirst.{AreOverFirst, IsOverFirst};

use bound_expr::Bound;
use cert_types::Proof;

// Whether each variable of a bound is below n.
#[cycle(read_bounds)]
fn reads_below(n: usize, bound: &Bound) -> bool
    ensures { result ≡ true → ReadsBelow n (bound_of bound.now) }
{
    match bound {
        Bound::Const(_) => true,
        Bound::Var(i) => (*i as usize) < n,
        Bound::Sum(parts) => all_read_below(n, parts),
        Bound::Prod(factors) => all_read_below(n, factors),
        Bound::Max(parts) => all_read_below(n, parts),
        Bound::Power(_, exponent) => reads_below(n, exponent),
    }
}

// Whether each variable of each of these parts is below n.
#[cycle(read_bounds)]
fn all_read_below(n: usize, parts: &[Bound]) -> bool
    ensures { result ≡ true → AllReadBelow n (parts_of (bounds_of parts.now)) }
{
    for part in parts {
        if !reads_below(n, part) {
            return false;
        }
    }
    true
}

// Whether the bounds of a proof are over the first n start arguments.
#[cycle(over_first)]
fn is_over_first(n: usize, proof: &Proof) -> bool
    ensures { result ≡ true → IsOverFirst n (proof_of proof.now) }
{
    match proof {
        Proof::Cite(_) | Proof::Start | Proof::Empty(_) => true,
        Proof::Unreached(node) => uses_are_over_first(n, &node.uses),
        Proof::Never(child) => is_over_first(n, child),
        Proof::Rank(node) => uses_are_over_first(n, &node.uses),
        Proof::Spread(node) => uses_are_over_first(n, &node.uses),
        Proof::Cycle(node) => uses_are_over_first(n, &node.uses),
        Proof::Weaken(child, bound) => is_over_first(n, child) && reads_below(n, bound),
        Proof::Cost(node) => uses_are_over_first(n, &node.uses),
    }
}

// Whether the bounds of each use are over the first n start arguments.
#[cycle(over_first)]
fn uses_are_over_first(n: usize, uses: &[Proof]) -> bool
    ensures { result ≡ true → AreOverFirst n (uses_of (map proof_of uses.now)) }
{
    for proof in uses {
        if !is_over_first(n, proof) {
            return false;
        }
    }
    true
}

/// Whether the bounds of each lemma are over the first n start arguments.
pub(crate) fn are_over_first(n: usize, lemmas: &[Proof]) -> bool
    ensures { result ≡ true → All (λ lemma. IsOverFirst n (proof_of lemma)) lemmas.now }
{
    for lemma in lemmas {
        if !is_over_first(n, lemma) {
            return false;
        }
    }
    true
}
