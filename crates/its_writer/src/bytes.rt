//! Appends bytes, names and integers to a text.

ghost use Rattle.std.specs.Prelude.{◌++◌, map, pos, OnOk};
ghost use Rattle.its_text.specs.expr_text.text_core.Names.{name_of};
ghost use Rattle.its_writer.specs.Expressions.{name_at};
ghost use Rattle.its_writer.specs.Layout.{integer_then};
ghost use Rattle.its_writer.specs.Printing.{WritesAll};

use itoa::Buffer;
use its_model::Name;
use poly_terms::Memory;

/// Writes bytes unchanged.
///
/// # Errors
///
/// `Memory` if an allocation fails; the contents of `text` are then unspecified.
pub(crate) fn write_bytes(text: &mut Vec<u8>, bytes: &[u8]) -> Result<(), Memory>
    ensures { OnOk result (WritesAll text.old.items text.new.items (λ rest. bytes.now ++ rest)) }
{
    text.extend_from_slice(bytes)
}

/// Writes the name with a number, if there is one with that number.
///
/// # Errors
///
/// `Memory` if an allocation fails; the contents of `text` are then unspecified.
pub(crate) fn write_name(text: &mut Vec<u8>, names: &[Name], number: u32) -> Result<(), Memory>
    ensures { OnOk result (WritesAll text.old.items text.new.items
        (λ rest. name_at (map name_of names.now) number ++ rest)) }
{
    match names.get(number as usize) {
        Some(name) => write_bytes(text, &name.bytes),
        None => Ok(()),
    }
}

/// Writes an integer in decimal digits, with a `-` before them if it is negative.
///
/// # Errors
///
/// `Memory` if an allocation fails; the contents of `text` are then unspecified.
pub(crate) fn write_integer(text: &mut Vec<u8>, z: i128) -> Result<(), Memory>
    ensures { OnOk result (WritesAll text.old.items text.new.items (integer_then z)) }
{
    write_bytes(text, Buffer::new().format(z).as_bytes())
}

/// Writes a number in decimal digits.
///
/// # Errors
///
/// `Memory` if an allocation fails; the contents of `text` are then unspecified.
pub(crate) fn write_number(text: &mut Vec<u8>, number: u32) -> Result<(), Memory>
    ensures { OnOk result (WritesAll text.old.items text.new.items (integer_then (pos number))) }
{
    write_integer(text, i128::from(number))
}
