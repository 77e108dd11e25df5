//! Reads the words after the command, one by one.

ghost use Rattle.std.specs.Prelude.{◌≡◌, map, string_bytes, MatchBool, MatchOption, IfOk, OnOk};
ghost use Rattle.command_line.specs.Lines.{Words, AreWordsWith};
ghost use Rattle.command_line.specs.Steps.{values_in, positionals_in, state_of, AcceptsWord, Refuses, HasOnePositional};
ghost use Rattle.command_line.specs.Steps.{HasOneValue};

use crate::kind::{Kind, is_value, kind_of};
use model::Memory;
use std::alloc::Global;

/// What may come next.
#[derive(Clone, Copy)]
pub(crate) enum Next {
    /// Any word.
    Word,
    /// The value of the option before it.
    Value,
    /// A positional: all words after `--` are.
    Positional,
}

/// What was read: the values of the option, and the positionals, each in order.
#[derive(Drop)]
pub(crate) struct Line {
    pub(crate) values: Vec<Vec<u8>>,
    pub(crate) positionals: Vec<String>,
    pub(crate) next: Next,
}

/// The values of the option and the positionals of these words; none if a word isn't permitted in its position.
pub(crate) fn read_line(alloc: Global, words: &[String]) -> Result<Option<Line>, Memory>
    ensures { IfOk result (λ read. MatchOption read
        ((values positionals : Words) → ¬ (AreWordsWith (map string_bytes words.now) values positionals))
        (λ line. AreWordsWith (map string_bytes words.now) (values_in line) (positionals_in line))) }
{
    let mut line = Line {
        values: Vec::new(alloc),
        positionals: Vec::new(alloc),
        next: Next::Word,
    };
    for word in words {
        let taken = accept_word(alloc, &mut line, word.as_str())?;
        if !taken {
            return Ok(None);
        }
    }
    match line.next {
        Next::Value => Ok(None),
        Next::Word => Ok(Some(line)),
        Next::Positional => Ok(Some(line)),
    }
}

// Adds a word to the line; false if the word isn't permitted there.
fn accept_word(alloc: Global, line: &mut Line, word: &str) -> Result<bool, Memory>
    ensures { IfOk result (λ taken. MatchBool taken
        (AcceptsWord (state_of line.old) word.now (state_of line.new))
        (Refuses (state_of line.old) word.now)) }
{
    match line.next {
        Next::Positional => {
            push_positional(alloc, line, word)?;
            Ok(true)
        }
        Next::Value => {
            if is_value(word.as_bytes()) {
                push_value(alloc, line, word.as_bytes())?;
                Ok(true)
            } else {
                Ok(false)
            }
        }
        Next::Word => accept_where_options(alloc, line, word),
    }
}

// Adds a word where options are permitted; false if it isn't permitted there.
fn accept_where_options(alloc: Global, line: &mut Line, word: &str) -> Result<bool, Memory>
    requires { line.old.next ≡ Next.Word }
    ensures { IfOk result (λ taken. MatchBool taken
        (AcceptsWord (state_of line.old) word.now (state_of line.new))
        (Refuses (state_of line.old) word.now)) }
{
    match kind_of(word.as_bytes()) {
        Kind::End => {
            line.next = Next::Positional;
            Ok(true)
        }
        Kind::Pivots => {
            line.next = Next::Value;
            Ok(true)
        }
        Kind::PivotsOf(value) => {
            if is_value(value) {
                push_value(alloc, line, value)?;
                Ok(true)
            } else {
                Ok(false)
            }
        }
        Kind::Plain => {
            push_positional(alloc, line, word)?;
            Ok(true)
        }
        Kind::Other => Ok(false),
    }
}

// One more positional.
fn push_positional(alloc: Global, line: &mut Line, word: &str) -> Result<(), Memory>
    ensures { OnOk result (HasOnePositional line.old word.now line.new) }
{
    line.positionals.push(String::from_str(alloc, word)?)?;
    Ok(())
}

// Adds a value of the option; any word is permitted after it.
fn push_value(alloc: Global, line: &mut Line, value: &[u8]) -> Result<(), Memory>
    ensures { OnOk result (HasOneValue line.old value.now line.new) }
{
    line.values.push(Vec::from_slice(alloc, value)?)?;
    line.next = Next::Word;
    Ok(())
}
