//! Reads a text in bytes.

ghost use Rattle.std.specs.Prelude.{◌≡◌, ◌+◌, ◌<◌, ◌^◌, length};
ghost use Rattle.text_core.specs.Reading.{answer};
ghost use Rattle.text_grammar.specs.Grammars.{rules_of};
ghost use Rattle.text_grammar.specs.Texts.{IsLawful, reader};
ghost use Rattle.text_grammar.specs.ByteTexts.{texts_of, tokens};
ghost use Rattle.text_grammar.specs.Results.{AgreesWith, refused_in};

use crate::byte_text::{ByteText, Spelling};
use crate::bytes::Bytes;
use crate::reading::read;
use crate::symbol::Item;
use crate::tables::Tables;
use crate::token::Refusal;
use crate::token_stream::{OneMode, TokenStream};
use std::alloc::Global;

/// Reads bytes as a text of which nothing has been read yet. The grammar is that of these items with this many classes
/// of pieces; the entries of its table are those after this many rounds.
///
/// # Errors
///
/// The first refusal of the text, and `Memory` if an allocation fails.
pub fn read_bytes<X: ByteText + Drop>(
    alloc: Global,
    items: &[Item],
    classes: u32,
    rounds: u32,
    text: X,
    bytes: &[u8],
) -> Result<X::Made, Refusal<X::Kind>>
    requires few { classes < 2 ^ 31 }
    requires lawful { IsLawful (texts_of (X.bytes_of text)) }
    requires rules { rules_of items.now ≡ (X.bytes_of text).rules }
    requires classes { 7 + length (X.bytes_of text).letters ≡ classes }
    requires rounds { (X.bytes_of text).rounds ≡ rounds }
    requires begins { X.own_of text ≡ (X.bytes_of text).begun }
    ensures { AgreesWith X.tree_in refused_in (answer (reader (texts_of (X.bytes_of text))) (length bytes.now)
        (tokens bytes.now)) result }
{
    let tables = Tables::new(alloc, items, classes, rounds)?;
    let cut = TokenStream::new(Bytes, OneMode::Plain, bytes);
    read(
        alloc,
        tables,
        Spelling::new(alloc, text),
        cut,
        bytes.len() as u64,
    )
}
