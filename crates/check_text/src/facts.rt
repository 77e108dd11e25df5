//! The text of a file that is accepted: its facts and its gaps.

ghost use Rattle.std.specs.Prelude.{◌≡◌, ◌++◌, length, map, IfOk, OnOk};
ghost use Rattle.std.specs.List.{All, flat_map};
ghost use Rattle.bound_expr.specs.Views.{bound_of};
ghost use Rattle.bound_expr.specs.Numbers.{ReadsBelow};
ghost use Rattle.bound_text.specs.Texts.{text_of};
ghost use Rattle.its_model.specs.Views.{name_of, program_of};
ghost use Rattle.cert_types.specs.AnswerViews.{gap_of};
ghost use Rattle.cert_types.specs.Views.{fact_of, facts_of};
ghost use Rattle.check_text.specs.Texts.{accepted_text, line_end, fact_line, gap_line, gap_lines};
ghost use Rattle.check_text.specs.StatedErrors.{FactReadsBelow};

use crate::numbers::{push_number, push_place};
use bound_expr::Bound;
use bound_text::write;
use cert_types::{Fact, Gap};
use its_model::{Name, Program};
use model::Memory;
use std::alloc::Global;

/// The text of these facts and gaps.
#[tactic(auto, unfolding(crate::specs::Texts::accepted_text))]
pub(crate) fn text_of_accepted(
    alloc: Global,
    p: &Program,
    facts: &[Fact],
    gaps: &[Gap],
) -> Result<Vec<u8>, Memory>
    requires { All (λ f. FactReadsBelow (length p.now.start_names.items) (fact_of f)) facts.now }
    ensures { IfOk result (λ text.
        text.items ≡ accepted_text (program_of p.now) (facts_of facts.now) (map gap_of gaps.now)) }
{
    let mut text = Vec::from_slice(alloc, b"accepted\n")?;
    push_facts(&mut text, &p.start_names, facts)?;
    push_gaps(&mut text, gaps)?;
    Ok(text)
}

// A line for each fact.
fn push_facts(text: &mut Vec<u8>, names: &[Name], facts: &[Fact]) -> Result<(), Memory>
    requires { All (λ f. FactReadsBelow (length names.now) (fact_of f)) facts.now }
    ensures { OnOk result
        (text.new.items ≡ text.old.items ++ flat_map (fact_line (map name_of names.now)) (facts_of facts.now)) }
{
    for fact in facts {
        push_fact(text, names, fact)?;
    }
    Ok(())
}

// The line of a fact.
fn push_fact(text: &mut Vec<u8>, names: &[Name], fact: &Fact) -> Result<(), Memory>
    requires { FactReadsBelow (length names.now) (fact_of fact.now) }
    ensures { OnOk result (text.new.items ≡ text.old.items ++ fact_line (map name_of names.now) (fact_of fact.now)) }
{
    match fact {
        Fact::Time { rule, bound } => {
            text.extend_from_slice(b"time ")?;
            push_number(text, u64::from(*rule))?;
            push_bound(text, names, bound)
        }
        Fact::Size { rule, place, bound } => {
            text.extend_from_slice(b"size ")?;
            push_place(text, *rule, *place)?;
            push_bound(text, names, bound)
        }
        Fact::Cost { rule, bound } => {
            text.extend_from_slice(b"cost ")?;
            push_number(text, u64::from(*rule))?;
            push_bound(text, names, bound)
        }
    }
}

// A colon, the text of a bound, and the end of its line.
fn push_bound(text: &mut Vec<u8>, names: &[Name], bound: &Bound) -> Result<(), Memory>
    requires { ReadsBelow (length names.now) (bound_of bound.now) }
    ensures { OnOk result
        (text.new.items ≡ text.old.items ++ line_end (text_of (map name_of names.now) (bound_of bound.now))) }
{
    text.extend_from_slice(b": ")?;
    write(names, text, bound)?;
    text.extend_from_slice(b"\n")
}

// A line for each gap.
fn push_gaps(text: &mut Vec<u8>, gaps: &[Gap]) -> Result<(), Memory>
    ensures { OnOk result (text.new.items ≡ text.old.items ++ gap_lines (map gap_of gaps.now)) }
{
    for gap in gaps {
        push_gap(text, gap)?;
    }
    Ok(())
}

// The line of a gap: the rule that no function with coefficient 0 at the shut places ranks.
fn push_gap(text: &mut Vec<u8>, gap: &Gap) -> Result<(), Memory>
    ensures { OnOk result (text.new.items ≡ text.old.items ++ gap_line (gap_of gap.now).rule) }
{
    text.extend_from_slice(b"gap ")?;
    push_number(text, u64::from(gap.rule))?;
    text.extend_from_slice(b"\n")
}
