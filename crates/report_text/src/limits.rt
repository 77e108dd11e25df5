//! Limit hits in a report.

ghost use Rattle.std.specs.Prelude.{◌≡◌, ◌++◌, decimal, OnOk};
ghost use Rattle.report_text.specs.Reasons.{question_text, cause_text, limit_hit_text, large_text};

use crate::numbers::{push_number, push_place};
use cert_types::{LimitCause, LimitHit, Question};
use model::Memory;

/// Writes the limit that a linear program exceeded, and its question.
pub(crate) fn push_limit_hit(text: &mut Vec<u8>, limit_hit: &LimitHit) -> Result<(), Memory>
    ensures { OnOk result (text.new.items ≡ text.old.items ++ limit_hit_text limit_hit.now) }
{
    push_question(text, limit_hit.question)?;
    text.extend_from_slice(b" ")?;
    push_cause(text, limit_hit.cause)
}

// Writes the question of a linear program.
fn push_question(text: &mut Vec<u8>, question: Question) -> Result<(), Memory>
    ensures { OnOk result (text.new.items ≡ text.old.items ++ question_text question) }
{
    match question {
        Question::Empty { rule } => push_word_and_number(text, b"empty ", u64::from(rule)),
        Question::Rank { rule } => push_word_and_number(text, b"rank ", u64::from(rule)),
        Question::Local { rule, place } => {
            text.extend_from_slice(b"local ")?;
            push_place(text, u64::from(rule), u64::from(place))
        }
        Question::Cost { rule } => push_word_and_number(text, b"cost ", u64::from(rule)),
    }
}

// Writes the limit that the linear program exceeded.
fn push_cause(text: &mut Vec<u8>, cause: LimitCause) -> Result<(), Memory>
    ensures { OnOk result (text.new.items ≡ text.old.items ++ cause_text cause) }
{
    match cause {
        LimitCause::Range { pivot } => push_word_and_number(
            text,
            b"range at pivot ",
            u64::from(pivot),
        ),
        LimitCause::Budget { pivots } => push_number_between(
            text,
            b"budget after ",
            u64::from(pivots),
            b" pivots",
        ),
        LimitCause::Wide { entries } => push_number_between(text, b"wide ", entries, b" entries"),
        LimitCause::Scale => text.extend_from_slice(b"scale"),
    }
}

/// The number of nodes of a bound that is too large.
pub(crate) fn push_large(text: &mut Vec<u8>, nodes: u64) -> Result<(), Memory>
    ensures { OnOk result (text.new.items ≡ text.old.items ++ large_text nodes) }
{
    push_number_between(text, b"large ", nodes, b" nodes")
}

// A number after a word.
fn push_word_and_number(text: &mut Vec<u8>, word: &[u8], n: u64) -> Result<(), Memory>
    ensures { OnOk result (text.new.items ≡ text.old.items ++ (word.now ++ decimal n)) }
{
    text.extend_from_slice(word)?;
    push_number(text, n)
}

// A number between two words.
fn push_number_between(
    text: &mut Vec<u8>,
    before: &[u8],
    n: u64,
    after: &[u8],
) -> Result<(), Memory>
    ensures { OnOk result (text.new.items ≡ text.old.items ++ (before.now ++ (decimal n ++ after.now))) }
{
    push_word_and_number(text, before, n)?;
    text.extend_from_slice(after)
}
