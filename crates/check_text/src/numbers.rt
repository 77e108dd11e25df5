//! Numbers, and rules with places.

ghost use Rattle.std.specs.Prelude.{◌≡◌, ◌++◌, decimal, OnOk};
ghost use Rattle.check_text.specs.Texts.{place_text};

use itoa::Buffer;
use model::Memory;

/// Appends a number, in decimal.
///
/// # Errors
///
/// `Memory` where an allocation fails.
pub fn push_number(text: &mut Vec<u8>, n: u64) -> Result<(), Memory>
    ensures { OnOk result (text.new.items ≡ text.old.items ++ decimal n) }
{
    text.extend_from_slice(Buffer::new().format(n).as_bytes())
}

/// Appends a rule and a place, with a dot between them.
///
/// # Errors
///
/// `Memory` where an allocation fails.
pub fn push_place(text: &mut Vec<u8>, rule: u32, place: u32) -> Result<(), Memory>
    ensures { OnOk result (text.new.items ≡ text.old.items ++ place_text rule place) }
{
    push_number(text, u64::from(rule))?;
    text.extend_from_slice(b".")?;
    push_number(text, u64::from(place))
}
