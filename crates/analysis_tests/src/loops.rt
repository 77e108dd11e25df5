//! The components of places, in their order, and which of them loop.

ghost use Rattle.std.specs.Prelude.{◌≡◌, length, map, IfOk};
ghost use Rattle.std.specs.List.{All};
ghost use Rattle.model.specs.Programs.{Program as PlainProgram};
ghost use Rattle.its_graph.specs.Graphs.{IsGraphOf};
ghost use Rattle.its_model.specs.Valid.{IsValid};
ghost use Rattle.its_model.specs.Views.{program_of};
ghost use Rattle.cert_types.specs.Composing.{AreRowsOf};
ghost use Rattle.rank_search.specs.rule_questions.EmptyAnswers.{IsPrepared};

use crate::members::locals_after;
use crate::programs::all_rows;
use crate::words::number_at;
use guard_prep::RuleRows;
use its_graph::Graph;
use its_model::Program;
use local_size::LocalAnswer;
use model::Memory;
use rvg_components::{Component, components};
use std::alloc::Global;

// The answer for each place of each rule, in order.
fn all_locals(alloc: Global, prepared_rules: &[RuleRows]) -> Result<Vec<Vec<LocalAnswer>>, Memory>
    requires { All IsPrepared prepared_rules.now }
    ensures { IfOk result (λ locals. map (λ l. length l.items) locals.items
        ≡ map (λ m. length m.new_values.items) prepared_rules.now) }
{
    let mut locals = Vec::new(alloc);
    for (position, prepared_rule) in prepared_rules.iter().enumerate() {
        locals.push(locals_after(alloc, prepared_rule, number_at(position))?)?;
    }
    Ok(locals)
}

// The components of a program with this graph and these rows, of which these rules are live.
fn components_by(
    alloc: Global,
    g: &Graph,
    prepared_rules: &[RuleRows],
    live: &[bool],
) -> Result<Vec<Component>, Memory>
    requires { (p : PlainProgram) × (IsValid p × (IsGraphOf g.now p × (AreRowsOf prepared_rules.now p
        × (length live.now ≡ length p.rules)))) }
{
    let locals = all_locals(alloc, prepared_rules)?;
    components(alloc, g, prepared_rules, &locals, live)
}

/// The components of a program of which the rules with a `+` are live: the members of each, and whether it loops.
pub(crate) fn components_text(alloc: Global, p: &Program, signs: &str) -> Result<String, Memory>
    requires { IsValid (program_of p.now) }
{
    let mut live = Vec::new(alloc);
    for sign in signs.trim().chars() {
        live.push(sign == '+')?;
    }
    if live.len() != p.rules.len() {
        return String::from_str(alloc, "not a sign for each rule");
    }
    let graph = Graph::new(alloc, p)?;
    let prepared_rules = all_rows(alloc, p)?;
    let found = components_by(alloc, &graph, &prepared_rules, &live)?;
    text_of_components(alloc, &found)
}

// Components as text.
fn text_of_components(alloc: Global, found: &[Component]) -> Result<String, Memory> {
    let mut text = String::new(alloc);
    for component in found {
        if !text.is_empty() {
            text.push_str("; ")?;
        }
        for (position, member) in component.members.iter().enumerate() {
            let blank = if position == 0 { "" } else { " " };
            text.push_str(&format!(in alloc; "{blank}{}.{}", member.rule, member.place)?)?;
        }
        text.push_str(if component.looping { " loops" } else { "" })?;
    }
    Ok(text)
}
