//! Prints gaps.

ghost use Rattle.std.specs.Prelude.{◌≡◌, ◌++◌, map, codes, OnOk};
ghost use Rattle.its_model.specs.Views.{program_of};
ghost use Rattle.cert_types.specs.AnswerViews.{gap_of, scaled_of, shut_of, symbol_place};
ghost use Rattle.cert_text.specs.Lists.{bracketed, each_behind, joined, listed};
ghost use Rattle.cert_text.specs.Texts.{gap_head, gap_points, gap_text, symbol_place_text, point_text};

use crate::nodes::push_name;
use crate::numbers::{push_each_before, push_number, push_rules};
use cert_types::Gap;
use farkas_cert::Scaled;
use its_model::Program;
use model::Memory;

/// Writes the parts of a gap.
pub(crate) fn push_gap(text: &mut Vec<u8>, p: &Program, gap: &Gap) -> Result<(), Memory>
    ensures { OnOk result (text.new.items ≡ text.old.items ++ gap_text (program_of p.now) (gap_of gap.now)) }
{
    push_gap_head(text, p, gap)?;
    push_gap_points(text, gap)
}

// Writes the rule, the set and the shut places.
fn push_gap_head(text: &mut Vec<u8>, p: &Program, gap: &Gap) -> Result<(), Memory>
    ensures { OnOk result (text.new.items ≡ text.old.items ++ gap_head (program_of p.now) (gap_of gap.now)) }
{
    push_number(text, u64::from(gap.rule))?;
    text.extend_from_slice(b" set ")?;
    push_rules(text, &gap.set)?;
    text.extend_from_slice(b" shut ")?;
    push_shut(text, p, &gap.shut)
}

// Writes the moves, the floor and the kept points.
fn push_gap_points(text: &mut Vec<u8>, gap: &Gap) -> Result<(), Memory>
    ensures { OnOk result (text.new.items ≡ text.old.items ++ gap_points (gap_of gap.now)) }
{
    text.extend_from_slice(b" moves ")?;
    push_points(text, &gap.moves)?;
    text.extend_from_slice(b" floor ")?;
    push_point(text, &gap.floor)?;
    text.extend_from_slice(b" kept ")?;
    push_points(text, &gap.kept)
}

// Writes a scaled point.
fn push_point(text: &mut Vec<u8>, point: &Scaled) -> Result<(), Memory>
    ensures { OnOk result (text.new.items ≡ text.old.items ++ point_text (scaled_of point.now)) }
{
    text.extend_from_slice(b"[")?;
    push_each_before(text, &point.parts)?;
    push_number(text, point.den)?;
    text.extend_from_slice(b"]")
}

// Writes points in square brackets, with a semicolon and a blank between them.
fn push_points(text: &mut Vec<u8>, points: &[Scaled]) -> Result<(), Memory>
    ensures { OnOk result (text.new.items ≡ text.old.items
        ++ listed (map point_text (map scaled_of points.now))) }
{
    text.extend_from_slice(b"[")?;
    push_joined_points(text, points)?;
    text.extend_from_slice(b"]")
}

// Writes points, with a semicolon and a blank between them.
fn push_joined_points(text: &mut Vec<u8>, points: &[Scaled]) -> Result<(), Memory>
    ensures { OnOk result (text.new.items ≡ text.old.items
        ++ joined (codes "; ") (map point_text (map scaled_of points.now))) }
{
    let Some((first, others)) = points.split_first() else {
        return Ok(());
    };
    push_point(text, first)?;
    push_more_points(text, others)
}

// Writes points, with a semicolon and a blank before each.
fn push_more_points(text: &mut Vec<u8>, points: &[Scaled]) -> Result<(), Memory>
    ensures { OnOk result (text.new.items ≡ text.old.items
        ++ each_behind (codes "; ") (map point_text (map scaled_of points.now))) }
{
    for point in points {
        text.extend_from_slice(b"; ")?;
        push_point(text, point)?;
    }
    Ok(())
}

// Writes shut places in square brackets, with a blank between them.
fn push_shut(text: &mut Vec<u8>, p: &Program, shut: &[(u32, u32)]) -> Result<(), Memory>
    ensures { OnOk result (text.new.items ≡ text.old.items
        ++ bracketed (joined (codes " ") (map (symbol_place_text (program_of p.now)) (map shut_of shut.now)))) }
{
    text.extend_from_slice(b"[")?;
    push_joined_places(text, p, shut)?;
    text.extend_from_slice(b"]")
}

// Writes places, with a blank between them.
fn push_joined_places(text: &mut Vec<u8>, p: &Program, places: &[(u32, u32)]) -> Result<(), Memory>
    ensures { OnOk result (text.new.items ≡ text.old.items
        ++ joined (codes " ") (map (symbol_place_text (program_of p.now)) (map shut_of places.now))) }
{
    let Some((first, others)) = places.split_first() else {
        return Ok(());
    };
    push_place(text, p, first.0, first.1)?;
    push_more_places(text, p, others)
}

// Writes places, with a blank before each.
fn push_more_places(text: &mut Vec<u8>, p: &Program, places: &[(u32, u32)]) -> Result<(), Memory>
    ensures { OnOk result (text.new.items ≡ text.old.items
        ++ each_behind (codes " ") (map (symbol_place_text (program_of p.now)) (map shut_of places.now))) }
{
    for place in places {
        text.extend_from_slice(b" ")?;
        push_place(text, p, place.0, place.1)?;
    }
    Ok(())
}

// Writes a place of a symbol.
fn push_place(text: &mut Vec<u8>, p: &Program, symbol: u32, place: u32) -> Result<(), Memory>
    ensures { OnOk result (text.new.items ≡ text.old.items
        ++ symbol_place_text (program_of p.now) (symbol_place symbol place)) }
{
    push_name(text, &p.symbols, symbol)?;
    text.extend_from_slice(b".")?;
    push_number(text, u64::from(place))
}
