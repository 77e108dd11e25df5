//! Kinds of bounds.

ghost use Rattle.std.specs.Prelude.{◌≡◌};
ghost use Rattle.bound_expr.specs.Views.{bound_of};
ghost use Rattle.bound_text.specs.Shapes.{is_leaf as is_leaf_bound, is_sum as is_sum_bound};
ghost use Rattle.bound_text.specs.Shapes.{is_maximum as is_maximum_bound};
ghost use Rattle.bound_text.specs.ParserStates.{is_input};

use bound_expr::Bound;

/// Whether the bound is a constant or a variable.
pub fn is_leaf(bound: &Bound) -> bool
    ensures { result ≡ is_leaf_bound (bound_of bound.now) }
{
    matches!(bound, Bound::Const(_) | Bound::Var(_))
}

/// Whether the bound is a sum.
pub fn is_sum(bound: &Bound) -> bool
    ensures { result ≡ is_sum_bound (bound_of bound.now) }
{
    matches!(bound, Bound::Sum(_))
}

/// Whether the bound is a maximum.
pub fn is_maximum(bound: &Bound) -> bool
    ensures { result ≡ is_maximum_bound (bound_of bound.now) }
{
    matches!(bound, Bound::Max(_))
}

/// Whether the bound is this variable.
pub fn is_variable(bound: &Bound, variable: u32) -> bool
    ensures { result ≡ is_input variable (Some (bound_of bound.now)) }
{
    match bound {
        Bound::Var(i) => *i == variable,
        _ => false,
    }
}
