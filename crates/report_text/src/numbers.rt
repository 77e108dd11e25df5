//! Numbers in a report: rules, places, points.

ghost use Rattle.std.specs.Prelude.{◌≡◌, ◌++◌, map, decimal, OnOk};
ghost use Rattle.std.specs.Fmt.{signed_decimal};
ghost use Rattle.cert_types.specs.AnswerViews.{scaled_of};
ghost use Rattle.report_text.specs.Pieces.{with_commas, with_commas_before, rules_text, parts_text, point_text};
ghost use Rattle.report_text.specs.Pieces.{place_text};

use farkas_cert::Scaled;
use itoa::Buffer;
use model::Memory;

/// A number.
pub(crate) fn push_number(text: &mut Vec<u8>, n: u64) -> Result<(), Memory>
    ensures { OnOk result (text.new.items ≡ text.old.items ++ decimal n) }
{
    text.extend_from_slice(Buffer::new().format(n).as_bytes())
}

/// A number with its sign.
pub(crate) fn push_signed(text: &mut Vec<u8>, n: i64) -> Result<(), Memory>
    ensures { OnOk result (text.new.items ≡ text.old.items ++ signed_decimal n) }
{
    text.extend_from_slice(Buffer::new().format(n).as_bytes())
}

/// A rule and a place.
pub(crate) fn push_place(text: &mut Vec<u8>, rule: u64, place: u64) -> Result<(), Memory>
    ensures { OnOk result (text.new.items ≡ text.old.items ++ place_text rule place) }
{
    push_number(text, rule)?;
    text.extend_from_slice(b".")?;
    push_number(text, place)
}

/// The numbers of rules, with a comma and a blank between them.
pub(crate) fn push_rules(text: &mut Vec<u8>, rules: &[u32]) -> Result<(), Memory>
    ensures { OnOk result (text.new.items ≡ text.old.items ++ rules_text rules.now) }
{
    let Some((first, others)) = rules.split_first() else {
        return Ok(());
    };
    push_number(text, u64::from(*first))?;
    push_more_rules(text, others)
}

// A comma and a blank before each rule.
fn push_more_rules(text: &mut Vec<u8>, rules: &[u32]) -> Result<(), Memory>
    ensures { OnOk result (text.new.items ≡ text.old.items ++ with_commas_before (map decimal rules.now)) }
{
    for rule in rules {
        text.extend_from_slice(b", ")?;
        push_number(text, u64::from(*rule))?;
    }
    Ok(())
}

/// The numbers of a point or a ray, in brackets.
pub(crate) fn push_parts(text: &mut Vec<u8>, parts: &[i64]) -> Result<(), Memory>
    ensures { OnOk result (text.new.items ≡ text.old.items ++ parts_text parts.now) }
{
    text.extend_from_slice(b"(")?;
    push_parts_with_commas(text, parts)?;
    text.extend_from_slice(b")")
}

// The numbers, with a comma and a blank between them.
fn push_parts_with_commas(text: &mut Vec<u8>, parts: &[i64]) -> Result<(), Memory>
    ensures { OnOk result (text.new.items ≡ text.old.items ++ with_commas (map signed_decimal parts.now)) }
{
    let Some((first, others)) = parts.split_first() else {
        return Ok(());
    };
    push_signed(text, *first)?;
    push_more_parts(text, others)
}

// A comma and a blank before each number.
fn push_more_parts(text: &mut Vec<u8>, parts: &[i64]) -> Result<(), Memory>
    ensures { OnOk result (text.new.items ≡ text.old.items ++ with_commas_before (map signed_decimal parts.now)) }
{
    for part in parts {
        text.extend_from_slice(b", ")?;
        push_signed(text, *part)?;
    }
    Ok(())
}

/// A point: its numbers over their denominator.
pub(crate) fn push_point(text: &mut Vec<u8>, point: &Scaled) -> Result<(), Memory>
    ensures { OnOk result (text.new.items ≡ text.old.items ++ point_text (scaled_of point.now)) }
{
    push_parts(text, &point.parts)?;
    text.extend_from_slice(b" / ")?;
    push_number(text, point.den)
}
