//! Marks the inputs that a test has taken.

ghost use Rattle.std.specs.Prelude.{◌≡◌};
ghost use Rattle.bound_expr.specs.Views.{bound_of};
ghost use Rattle.bound_table.specs.Kinds.{is_same_input};
ghost use Rattle.bound_table.specs.Taking.{marked_one};

use bound_expr::Bound;

// How many variables have room for a mark. A program has fewer start arguments.
pub(crate) const MARKED: usize = 128;

// Marks a variable, where there is room for its mark.
pub(crate) fn mark(marks: &mut [bool], taken: &Bound)
    ensures { marks.new ≡ marked_one marks.old (bound_of taken.now) }
{
    if let Bound::Var(i) = taken {
        let index = *i as usize;
        if index < marks.len() {
            marks[index] = true;
        }
    }
}

pub(crate) fn is_same_var(a: &Bound, b: &Bound) -> bool
    ensures { result ≡ is_same_input (bound_of a.now) (bound_of b.now) }
{
    match a {
        Bound::Var(i) => match b {
            Bound::Var(j) => *i == *j,
            Bound::Const(_) | Bound::Sum(_) | Bound::Prod(_) | Bound::Max(_) | Bound::Power(_, _) =>
                false,
        },
        Bound::Const(_) | Bound::Sum(_) | Bound::Prod(_) | Bound::Max(_) | Bound::Power(_, _) =>
            false,
    }
}
