//! Drops the parts of a maximum that are below another part.

ghost use Rattle.std.specs.Prelude.{◌≡◌, ◌<◌, [], length, remove};
ghost use Rattle.bound_expr.specs.Views.{bounds_of};
ghost use Rattle.bound_table.specs.Dominance.{dominant as dominant_of, dominant_after, below_another};

use crate::kinds::Kind;
use crate::lower::any_above;
use bound_expr::Bound;

// The parts of a maximum that no other part makes needless; all parts of another node.
pub(crate) fn dominant(kind: Kind, parts: Vec<Bound>) -> Vec<Bound>
    ensures { bounds_of result.items ≡ dominant_of kind (bounds_of parts.items) }
{
    match kind {
        Kind::AsMax => without_lower(parts),
        Kind::AsSum | Kind::AsProd => parts,
    }
}

// From the first part on, each part that is below another one still kept is dropped.
fn without_lower(parts: Vec<Bound>) -> Vec<Bound>
    ensures { bounds_of result.items ≡ dominant_after [] (bounds_of parts.items) }
{
    let mut kept = parts;
    let mut position = 0usize;
    while position < kept.len() {
        if is_below_another(&kept, position) {
            take_away(&mut kept, position);
        } else {
            position += 1;
        }
    }
    kept
}

fn take_away(parts: &mut Vec<Bound>, position: usize)
    requires { position < length parts.old.items }
    ensures { parts.new.items ≡ remove parts.old.items position }
{
    let _ = parts.remove(position);
}

// Whether the part at the position is below another part.
fn is_below_another(parts: &[Bound], position: usize) -> bool
    requires { position < length parts.now }
    ensures { result ≡ below_another (bounds_of parts.now) position }
{
    let part = &parts[position];
    any_above(part, &parts[..position]) || any_above(part, &parts[position + 1..])
}
