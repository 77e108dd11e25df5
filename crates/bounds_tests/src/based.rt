//! Whether all bases are at least 1, as the test whether a bound is below another requires.
#![tactic(auto, using(crate::proofs::Views::seen))]

ghost use Rattle.std.specs.Prelude.{◌≡◌, IsTrue};
ghost use Rattle.text_core.specs.model.Bounds.{IsBased};
ghost use Rattle.bound_expr.specs.Views.{bound_of, bounds_of, parts_of};
ghost use Rattle.bounds_tests.specs.Based.{bases_are_some, all_bases_are_some};

use bound_expr::Bound;

// Whether every base is at least 1.
#[tactic(auto, using(crate::proofs::Bases::is_based))]
pub(crate) fn is_based(bound: &Bound) -> bool
    ensures { IsTrue result → IsBased (bound_of bound.now) }
{
    bases_some(bound)
}

#[cycle(bases)]
fn bases_some(bound: &Bound) -> bool
    ensures { result ≡ bases_are_some (bound_of bound.now) }
{
    match bound {
        Bound::Const(_) | Bound::Var(_) => true,
        Bound::Sum(parts) | Bound::Prod(parts) | Bound::Max(parts) => all_bases_some(parts),
        Bound::Power(base, exponent) => 1 <= *base && bases_some(exponent),
    }
}

#[cycle(bases)]
fn all_bases_some(parts: &[Bound]) -> bool
    ensures { result ≡ all_bases_are_some (parts_of (bounds_of parts.now)) }
{
    for part in parts {
        if !bases_some(part) {
            return false;
        }
    }
    true
}
