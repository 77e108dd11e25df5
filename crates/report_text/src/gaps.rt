//! Gaps in a report.

ghost use Rattle.std.specs.Prelude.{◌≡◌, ◌++◌, map, slice_get, OnOk};
ghost use Rattle.its_model.specs.Views.{symbol_of};
ghost use Rattle.cert_types.specs.AnswerViews.{scaled_of, symbol_place, shut_of, gap_of};
ghost use Rattle.report_text.specs.Reasons.{shut_line, shut_lines, point_line, point_lines, gap_lines, gap_text};
ghost use Rattle.report_text.specs.Reasons.{name_in};

use crate::numbers::{push_number, push_point, push_rules};
use cert_types::Gap;
use farkas_cert::Scaled;
use its_model::Symbol;
use model::Memory;

/// Writes why no function ranks: the set of the gap, and the lines of the gap.
pub(crate) fn push_gap(text: &mut Vec<u8>, symbols: &[Symbol], gap: &Gap) -> Result<(), Memory>
    ensures { OnOk result (text.new.items ≡ text.old.items ++ gap_text (map symbol_of symbols.now) (gap_of gap.now)) }
{
    text.extend_from_slice(b"no affine ranking function over rules ")?;
    push_rules(text, &gap.set)?;
    text.extend_from_slice(b"\n")?;
    push_gap_lines(text, symbols, gap)
}

// The lines of a gap.
fn push_gap_lines(text: &mut Vec<u8>, symbols: &[Symbol], gap: &Gap) -> Result<(), Memory>
    ensures { OnOk result (text.new.items ≡ text.old.items ++ gap_lines (map symbol_of symbols.now) (gap_of gap.now)) }
{
    push_shut_lines(text, symbols, &gap.shut)?;
    push_points(text, b"move", &gap.set, &gap.moves)?;
    push_point_line(text, b"floor", gap.rule, &gap.floor)?;
    push_points(text, b"kept", &gap.set, &gap.kept)
}

// A line for each shut place.
fn push_shut_lines(
    text: &mut Vec<u8>,
    symbols: &[Symbol],
    shut: &[(u32, u32)],
) -> Result<(), Memory>
    ensures { OnOk result
        (text.new.items ≡ text.old.items ++ shut_lines (map symbol_of symbols.now) (map shut_of shut.now)) }
{
    for place in shut {
        push_shut_line(text, symbols, place.0, place.1)?;
    }
    Ok(())
}

// The line of a shut place.
fn push_shut_line(
    text: &mut Vec<u8>,
    symbols: &[Symbol],
    symbol: u32,
    place: u32,
) -> Result<(), Memory>
    ensures { OnOk result (text.new.items ≡ text.old.items
        ++ shut_line (map symbol_of symbols.now) (symbol_place symbol place)) }
{
    text.extend_from_slice(b"  shut ")?;
    push_name(text, symbols, symbol)?;
    text.extend_from_slice(b".")?;
    push_number(text, u64::from(place))?;
    text.extend_from_slice(b"\n")
}

// The name of a symbol.
fn push_name(text: &mut Vec<u8>, symbols: &[Symbol], symbol: u32) -> Result<(), Memory>
    ensures { OnOk result
        (text.new.items ≡ text.old.items ++ name_in (slice_get (map symbol_of symbols.now) symbol)) }
{
    match symbols.get(symbol as usize) {
        Some(symbol) => text.extend_from_slice(&symbol.name.bytes),
        None => Ok(()),
    }
}

// A line for the point of each rule of a set.
fn push_points(
    text: &mut Vec<u8>,
    word: &[u8],
    set: &[u32],
    points: &[Scaled],
) -> Result<(), Memory>
    ensures { OnOk result
        (text.new.items ≡ text.old.items ++ point_lines word.now set.now (map scaled_of points.now)) }
{
    let Some((rule, rules)) = set.split_first() else {
        return Ok(());
    };
    let Some((point, others)) = points.split_first() else {
        return Ok(());
    };
    push_point_line(text, word, *rule, point)?;
    push_points(text, word, rules, others)
}

// The line for the point of a rule.
fn push_point_line(text: &mut Vec<u8>, word: &[u8], rule: u32, point: &Scaled) -> Result<(), Memory>
    ensures { OnOk result (text.new.items ≡ text.old.items ++ point_line word.now rule (scaled_of point.now)) }
{
    text.extend_from_slice(b"  ")?;
    text.extend_from_slice(word)?;
    text.extend_from_slice(b" ")?;
    push_number(text, u64::from(rule))?;
    text.extend_from_slice(b": ")?;
    push_point(text, point)?;
    text.extend_from_slice(b"\n")
}
