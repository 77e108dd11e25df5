//! The name of the free variable.

ghost use Rattle.std.specs.Prelude.{◌≡◌, nat_eq, map, IfOk};
ghost use Rattle.std.specs.List.{list_any};
ghost use Rattle.std.specs.Cmp.Lexicographic.{pointwise};
ghost use Rattle.while_model.specs.Translation.{longest as longest_of, free_name as free_name_of};
ghost use Rattle.its_model.specs.Views.{name_of};

use its_model::Name;
use poly_terms::Memory;
use std::alloc::Global;

// The length of the longest name.
fn longest(names: &[Name]) -> usize
    ensures { result ≡ longest_of (map name_of names.now) }
{
    let mut most = 0;
    for name in names {
        most = most.max(name.bytes.len());
    }
    most
}

// Whether some name has these bytes.
fn is_among(names: &[Name], bytes: &[u8]) -> bool
    ensures { result ≡ list_any (pointwise nat_eq bytes.now) (map name_of names.now) }
{
    for name in names {
        if bytes == name.bytes.as_slice() {
            return true;
        }
    }
    false
}

// `h`, with the fewest `_` after it that make it none of these names.
#[tactic(auto, using(crate::proofs::Names::apart_none, crate::proofs::Names::apart_zero, crate::proofs::Names::apart_more))]
pub(crate) fn free_name(alloc: Global, inputs: &[Name]) -> Result<Name, Memory>
    ensures { IfOk result (λ name. name_of name ≡ free_name_of (map name_of inputs.now)) }
{
    let mut bytes = b"h".to_vec(alloc)?;
    let mut left = longest(inputs);
    while left > 0 && is_among(inputs, &bytes) {
        bytes.push(b'_')?;
        left -= 1;
    }
    Ok(Name { bytes })
}
