//! Texts in a short notation: `%3:A#,%` represents `A0,A1,A2,`, and after a backquote a byte is written as two
//! hexadecimal digits.

use itoa::Buffer;
use poly_terms::Memory;
use std::alloc::Global;
use text_core::digits_len;

// The value of a hexadecimal digit.
fn digit(byte: u8) -> u8 {
    if byte.is_ascii_digit() {
        byte.wrapping_sub(b'0')
    } else {
        byte.wrapping_sub(b'a').saturating_add(10)
    }
}

// Bytes unchanged, except for those that are written as digits.
fn push_plain(text: &mut Vec<u8>, written: &[u8]) -> Result<(), Memory> {
    let mut rest = written;
    for _ in 0..written.len() {
        match rest {
            [] => return Ok(()),
            [b'`', high, low, behind @ ..] => {
                text.push(digit(*high).wrapping_mul(16).wrapping_add(digit(*low)))?;
                rest = behind;
            }
            [byte, behind @ ..] => {
                text.push(*byte)?;
                rest = behind;
            }
        }
    }
    Ok(())
}

// A part with its number in the place of `#`.
fn push_part(text: &mut Vec<u8>, part: &[u8], number: usize) -> Result<(), Memory> {
    let mut buffer = Buffer::new();
    for byte in part {
        if *byte == b'#' {
            text.extend_from_slice(buffer.format(number).as_bytes())?;
        } else {
            text.push(*byte)?;
        }
    }
    Ok(())
}

// The number that the digits write.
fn number_of(digits: &[u8]) -> usize {
    let mut count = 0usize;
    for digit in digits {
        count = count
            .saturating_mul(10)
            .saturating_add(digit.wrapping_sub(b'0') as usize);
    }
    count
}

// A part, repeated; it follows a count and a colon.
fn push_repeated(text: &mut Vec<u8>, written: &[u8]) -> Result<(), Memory> {
    let (digits, behind) = written.split_at(digits_len(written));
    if let Some((_, part)) = behind.split_first() {
        for number in 0..number_of(digits) {
            push_part(text, part, number)?;
        }
    }
    Ok(())
}

/// The text that is written.
pub(crate) fn text_of(alloc: Global, written: &str) -> Result<Vec<u8>, Memory> {
    let mut text = Vec::new(alloc);
    for (i, part) in written.as_bytes().split(|byte| *byte == b'%').enumerate() {
        if i % 2 == 0 {
            push_plain(&mut text, part)?;
        } else {
            push_repeated(&mut text, part)?;
        }
    }
    Ok(text)
}
