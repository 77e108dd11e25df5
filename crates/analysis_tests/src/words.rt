//! Numbers and places as lines write them.

ghost use Rattle.std.specs.Prelude.{◌+◌, ◌≤◌};

use cert_types::ResultVariable;
use model::Memory;
use std::alloc::Global;

/// The first word of a text and the rest after its blank.
pub(crate) fn first_and_rest(text: &str) -> (&str, &str) {
    text.split_once(' ').unwrap_or((text, ""))
}

/// A number; of other words, 0.
pub(crate) fn number(word: &str) -> u32 {
    word.parse::<u32>().unwrap_or(0)
}

/// The place of a rule that is written RULE.PLACE.
pub(crate) fn result_variable(word: &str) -> ResultVariable {
    let (rule, place) = word.split_once('.').unwrap_or((word, ""));
    ResultVariable {
        rule: number(rule),
        place: number(place),
    }
}

/// Places of rules that are divided by blanks.
pub(crate) fn result_variables(alloc: Global, words: &str) -> Result<Vec<ResultVariable>, Memory> {
    let mut found = Vec::new(alloc);
    for word in words.split_whitespace() {
        found.push(result_variable(word))?;
    }
    Ok(found)
}

/// The number, from 1, of the rule or place at a position. No program has 1,000 rules or places more.
pub(crate) fn number_at(position: usize) -> u32
    ensures least { 1 ≤ result }
    ensures most { result ≤ position + 1 }
{
    if position < 1_000 {
        position as u32 + 1
    } else {
        1
    }
}
