//! Prints numbers and lists of numbers.

ghost use Rattle.std.specs.Prelude.{◌≡◌, ◌+◌, ◌++◌, map, codes, decimal, OnOk};
ghost use Rattle.section_writer.specs.Lists.{each_behind, number_list, separated};

use itoa::Buffer;
use model::Memory;

/// A number.
pub(crate) fn push_number(text: &mut Vec<u8>, n: u32) -> Result<(), Memory>
    ensures { OnOk result (text.new.items ≡ text.old.items ++ decimal n) }
{
    text.extend_from_slice(Buffer::new().format(n).as_bytes())
}

/// A number of 64 bits.
pub(crate) fn push_long(text: &mut Vec<u8>, n: u64) -> Result<(), Memory>
    ensures { OnOk result (text.new.items ≡ text.old.items ++ decimal n) }
{
    text.extend_from_slice(Buffer::new().format(n).as_bytes())
}

/// The number behind this one: what is counted from 0 is counted from 1 in texts.
pub(crate) fn push_next(text: &mut Vec<u8>, n: u32) -> Result<(), Memory>
    ensures { OnOk result (text.new.items ≡ text.old.items ++ decimal (n + 1)) }
{
    push_long(text, u64::from(n) + 1)
}

/// Numbers in square brackets, with a blank between them.
pub(crate) fn push_numbers(text: &mut Vec<u8>, numbers: &[u32]) -> Result<(), Memory>
    ensures { OnOk result (text.new.items ≡ text.old.items ++ number_list numbers.now) }
{
    text.extend_from_slice(b"[")?;
    push_separated_numbers(text, numbers)?;
    text.extend_from_slice(b"]")
}

// The numbers, with a blank between them.
fn push_separated_numbers(text: &mut Vec<u8>, numbers: &[u32]) -> Result<(), Memory>
    ensures { OnOk result (text.new.items ≡ text.old.items ++ separated (codes " ") (map decimal numbers.now)) }
{
    let Some((first, others)) = numbers.split_first() else {
        return Ok(());
    };
    push_number(text, *first)?;
    push_more_numbers(text, others)
}

// A blank before each number.
fn push_more_numbers(text: &mut Vec<u8>, numbers: &[u32]) -> Result<(), Memory>
    ensures { OnOk result (text.new.items ≡ text.old.items ++ each_behind (codes " ") (map decimal numbers.now)) }
{
    for number in numbers {
        text.extend_from_slice(b" ")?;
        push_number(text, *number)?;
    }
    Ok(())
}
