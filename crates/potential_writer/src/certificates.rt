//! Prints certificates.

ghost use Rattle.std.specs.Prelude.{◌≡◌, ◌++◌, map, codes, OnOk};
ghost use Rattle.section_writer.specs.Lists.{each_behind, separated};
ghost use Rattle.potential_types.specs.Views.{summand_of, summands_of};
ghost use Rattle.potential_writer.specs.Parts.{certificate_text, summand_text};

use crate::numbers::{push_long, push_next};
use itoa::Buffer;
use model::Memory;
use potential_types::Summand;

/// A certificate.
#[tactic(auto, unfolding(crate::specs::Parts::certificate_text))]
pub(crate) fn push_certificate(text: &mut Vec<u8>, summands: &[Summand]) -> Result<(), Memory>
    ensures { OnOk result (text.new.items ≡ text.old.items ++ certificate_text (summands_of summands.now)) }
{
    text.extend_from_slice(b"{")?;
    push_separated_summands(text, summands)?;
    text.extend_from_slice(b"}")
}

// The summands, with a semicolon and a blank between them.
fn push_separated_summands(text: &mut Vec<u8>, summands: &[Summand]) -> Result<(), Memory>
    ensures { OnOk result (text.new.items
        ≡ text.old.items ++ separated (codes "; ") (map summand_text (summands_of summands.now))) }
{
    let Some((first, others)) = summands.split_first() else {
        return Ok(());
    };
    push_summand(text, *first)?;
    push_more_summands(text, others)
}

// A semicolon and a blank before each summand.
fn push_more_summands(text: &mut Vec<u8>, summands: &[Summand]) -> Result<(), Memory>
    ensures { OnOk result (text.new.items
        ≡ text.old.items ++ each_behind (codes "; ") (map summand_text (summands_of summands.now))) }
{
    for summand in summands {
        text.extend_from_slice(b"; ")?;
        push_summand(text, *summand)?;
    }
    Ok(())
}

// A summand.
fn push_summand(text: &mut Vec<u8>, summand: Summand) -> Result<(), Memory>
    ensures { OnOk result (text.new.items ≡ text.old.items ++ summand_text (summand_of summand)) }
{
    match summand {
        Summand::OneRow { times, row } => {
            push_long(text, times)?;
            text.extend_from_slice(b" row ")?;
            push_next(text, row)
        }
        Summand::TwoRows {
            times,
            first,
            second,
        } => {
            push_long(text, times)?;
            text.extend_from_slice(b" rows ")?;
            push_next(text, first)?;
            text.extend_from_slice(b" ")?;
            push_next(text, second)
        }
        Summand::ZeroRow {
            times,
            row,
            opposite,
            variable,
        } => {
            text.extend_from_slice(Buffer::new().format(times).as_bytes())?;
            text.extend_from_slice(b" zero ")?;
            push_next(text, row)?;
            text.extend_from_slice(b" ")?;
            push_next(text, opposite)?;
            text.extend_from_slice(b" by ")?;
            push_next(text, variable)
        }
    }
}
