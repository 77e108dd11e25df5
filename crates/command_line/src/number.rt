//! Numbers that are written as words.

ghost use Rattle.std.specs.Prelude.{◌≡◌, ℕ, MatchOption, IsTrue};
ghost use Rattle.std.specs.List.{list_all};
ghost use Rattle.std.specs.Char.{is_ascii_digit};
ghost use Rattle.command_line.specs.Numerals.{IsNumber};

use text_core::{has_leading_zero, value_up_to};

/// The number that a word writes, if it is at most the limit.
pub(crate) fn number(word: &[u8], limit: u32) -> Option<u32>
    ensures { MatchOption result ((n : ℕ) → ¬ (IsNumber limit word.now n)) (IsNumber limit word.now) }
{
    if word.is_empty() || !all_digits(word) || has_leading_zero(word) {
        return None;
    }
    let value = value_up_to(u128::from(limit) + 1, word);
    if value <= u128::from(limit) {
        Some(value as u32)
    } else {
        None
    }
}

// Whether all bytes are digits.
fn all_digits(word: &[u8]) -> bool
    ensures { result ≡ list_all is_ascii_digit word.now }
{
    word.iter().all(|byte| byte.is_ascii_digit())
}
