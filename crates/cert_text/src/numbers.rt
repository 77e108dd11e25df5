//! Prints numbers and lists of numbers.

ghost use Rattle.std.specs.Prelude.{◌≡◌, ◌++◌, map, codes, decimal, OnOk};
ghost use Rattle.std.specs.Fmt.{signed_decimal};
ghost use Rattle.cert_text.specs.Lists.{each_before, each_behind, joined, numbers_text};

use itoa::Buffer;
use model::Memory;

/// Writes a number.
pub(crate) fn push_number(text: &mut Vec<u8>, n: u64) -> Result<(), Memory>
    ensures { OnOk result (text.new.items ≡ text.old.items ++ decimal n) }
{
    text.extend_from_slice(Buffer::new().format(n).as_bytes())
}

/// Writes a number with its sign.
pub(crate) fn push_signed(text: &mut Vec<u8>, n: i64) -> Result<(), Memory>
    ensures { OnOk result (text.new.items ≡ text.old.items ++ signed_decimal n) }
{
    text.extend_from_slice(Buffer::new().format(n).as_bytes())
}

/// Writes numbers in square brackets, with a blank between them.
pub(crate) fn push_numbers(text: &mut Vec<u8>, numbers: &[u64]) -> Result<(), Memory>
    ensures { OnOk result (text.new.items ≡ text.old.items ++ numbers_text numbers.now) }
{
    text.extend_from_slice(b"[")?;
    push_joined_numbers(text, numbers)?;
    text.extend_from_slice(b"]")
}

// Writes numbers, with a blank between them.
fn push_joined_numbers(text: &mut Vec<u8>, numbers: &[u64]) -> Result<(), Memory>
    ensures { OnOk result (text.new.items ≡ text.old.items ++ joined (codes " ") (map decimal numbers.now)) }
{
    let Some((first, others)) = numbers.split_first() else {
        return Ok(());
    };
    push_number(text, *first)?;
    push_more_numbers(text, others)
}

// Writes numbers, with a blank before each.
fn push_more_numbers(text: &mut Vec<u8>, numbers: &[u64]) -> Result<(), Memory>
    ensures { OnOk result (text.new.items ≡ text.old.items ++ each_behind (codes " ") (map decimal numbers.now)) }
{
    for number in numbers {
        text.extend_from_slice(b" ")?;
        push_number(text, *number)?;
    }
    Ok(())
}

/// Writes the numbers of rules in square brackets, with a blank between them.
pub(crate) fn push_rules(text: &mut Vec<u8>, rules: &[u32]) -> Result<(), Memory>
    ensures { OnOk result (text.new.items ≡ text.old.items ++ numbers_text rules.now) }
{
    text.extend_from_slice(b"[")?;
    push_joined_rules(text, rules)?;
    text.extend_from_slice(b"]")
}

// Writes the numbers of rules, with a blank between them.
fn push_joined_rules(text: &mut Vec<u8>, rules: &[u32]) -> Result<(), Memory>
    ensures { OnOk result (text.new.items ≡ text.old.items ++ joined (codes " ") (map decimal rules.now)) }
{
    let Some((first, others)) = rules.split_first() else {
        return Ok(());
    };
    push_number(text, u64::from(*first))?;
    push_more_rules(text, others)
}

// Writes the numbers of rules, with a blank before each.
fn push_more_rules(text: &mut Vec<u8>, rules: &[u32]) -> Result<(), Memory>
    ensures { OnOk result (text.new.items ≡ text.old.items ++ each_behind (codes " ") (map decimal rules.now)) }
{
    for rule in rules {
        text.extend_from_slice(b" ")?;
        push_number(text, u64::from(*rule))?;
    }
    Ok(())
}

/// Writes numbers with their signs, and a blank after each.
pub(crate) fn push_each_before(text: &mut Vec<u8>, numbers: &[i64]) -> Result<(), Memory>
    ensures { OnOk result (text.new.items ≡ text.old.items ++ each_before numbers.now) }
{
    for number in numbers {
        push_signed(text, *number)?;
        text.extend_from_slice(b" ")?;
    }
    Ok(())
}
