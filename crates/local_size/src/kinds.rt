//! The kinds of forms that are tried at a place, in their order.

ghost use Rattle.std.specs.Prelude.{◌≡◌, ◌++◌, [], ◌∷◌, ◌≤◌, map, IfOk};
ghost use Rattle.cert_types.specs.rule_forms.Kinds.{arguments, kinds_for};
ghost use Rattle.local_size.specs.Asking.{kind_of, own_places, other_places};

use poly_terms::Memory;
use std::alloc::Global;

/// The sign of an argument: as it is, or negated.
#[derive(Clone, Copy, Debug, PartialEq, Eq)]
pub enum Sign {
    Plus,
    Minus,
}

/// A kind of form that is tried as a bound on a new value.
#[derive(Clone, Copy, Debug, PartialEq, Eq)]
pub enum Kind {
    /// A constant.
    Number,
    /// The left argument at a place, counted from 1, or its negation, with nothing added.
    Argument { place: u32, sign: Sign },
    /// An affine form in the left arguments.
    Affine,
}

/// The kinds of forms that are tried at a place of a rule with this many left arguments, in their order: a constant,
/// the argument at the same place, if there is one, and its negation, each other argument and its negation, and any
/// affine form; if the update is nonlinear, only the last.
pub(crate) fn kinds_of(
    alloc: Global,
    is_nonlinear: bool,
    left: u32,
    place: u32,
) -> Result<Vec<Kind>, Memory>
    requires { 1 ≤ place }
    ensures { IfOk result (λ kinds. map kind_of kinds.items ≡ kinds_for is_nonlinear left place) }
{
    let mut kinds = Vec::new(alloc);
    if is_nonlinear {
        kinds.push(Kind::Affine)?;
        return Ok(kinds);
    }
    kinds.push(Kind::Number)?;
    push_own(&mut kinds, left, place)?;
    push_others(&mut kinds, left, place)?;
    kinds.push(Kind::Affine)?;
    Ok(kinds)
}

// Pushes the argument at a place, and then its negation.
fn push_argument(kinds: &mut Vec<Kind>, place: u32) -> Result<(), Memory>
    ensures { IfOk result (λ _. map kind_of kinds.new.items ≡ map kind_of kinds.old.items ++ arguments (place ∷ [])) }
{
    kinds.push(Kind::Argument {
        place,
        sign: Sign::Plus,
    })?;
    kinds.push(Kind::Argument {
        place,
        sign: Sign::Minus,
    })?;
    Ok(())
}

// Pushes the argument at a place, if there is one, and then its negation.
fn push_own(kinds: &mut Vec<Kind>, left: u32, place: u32) -> Result<(), Memory>
    requires { 1 ≤ place }
    ensures { IfOk result (λ _. map kind_of kinds.new.items
        ≡ map kind_of kinds.old.items ++ arguments (own_places left place)) }
{
    if place > left {
        return Ok(());
    }
    push_argument(kinds, place)
}

// Pushes the arguments at all other places, in order, each followed by its negation.
fn push_others(kinds: &mut Vec<Kind>, left: u32, place: u32) -> Result<(), Memory>
    ensures { IfOk result (λ _. map kind_of kinds.new.items
        ≡ map kind_of kinds.old.items ++ arguments (other_places left place)) }
{
    for before in 0..left {
        let other = before + 1;
        if other != place {
            push_argument(kinds, other)?;
        }
    }
    Ok(())
}
