//! The edges along which values flow, by the numbers of places.

ghost use Rattle.std.specs.Prelude.{◌≡◌, ℕ, ◌++◌, ◌+◌, ◌<◌, ◌≤◌, ◌^◌, map, length, All, IfOk, OnOk};
ghost use Rattle.std.specs.Prelude.{slice_index_or, false, true, ◌∷◌, []};
ghost use Rattle.model.specs.Programs.{Program};
ghost use Rattle.its_graph.specs.Graphs.{IsGraphOf};
ghost use Rattle.guard_prep.specs.Views.{prepared_of};
ghost use Rattle.rvg_components.specs.Listing.{answer_lists, is_flagged};
ghost use Rattle.rvg_components.specs.Edges.{edges_from, edges_to, edges_into, first_of, firsts_of};
ghost use Rattle.rvg_components.specs.Edges.{live_edges_at, edges_below};
ghost use Rattle.rvg_components.specs.Fitting.{flow_inputs_of, IsFitting};

use crate::reading::answer_places;
use cert_types::nonlinear_update;
use guard_prep::RuleRows;
use its_graph::Graph;
use local_size::LocalAnswer;
use model::Memory;
use std::alloc::Global;

// Appends the edges into a place, from place number `place` of each rule with one of these first places.
fn push_from(edges: &mut Vec<(u32, u32)>, place: u32, to: u32, before: &[u32]) -> Result<(), Memory>
    requires few { place < 2 ^ 31 }
    requires before_few { All (λ first. first < 2 ^ 31) before.now }
    ensures { OnOk result (edges.new.items ≡ edges.old.items ++ edges_from place to before.now) }
{
    for first in before {
        edges.push((*first + place, to))?;
    }
    Ok(())
}

// Appends the edges into a place from each of the places that its answer reads.
fn push_to(
    edges: &mut Vec<(u32, u32)>,
    to: u32,
    before: &[u32],
    places: &[u32],
) -> Result<(), Memory>
    requires few { All (λ place. place < 2 ^ 31) places.now }
    requires before_few { All (λ first. first < 2 ^ 31) before.now }
    ensures { OnOk result (edges.new.items ≡ edges.old.items ++ edges_to to before.now places.now) }
{
    for place in places {
        push_from(edges, *place, to, before)?;
    }
    Ok(())
}

// Appends the edges into the places of a rule, given the number of its first place and the answers for its places.
fn push_into(
    alloc: Global,
    edges: &mut Vec<(u32, u32)>,
    prepared_rule: &RuleRows,
    before: &[u32],
    first: u32,
    answers: &[LocalAnswer],
) -> Result<(), Memory>
    requires left_few { prepared_rule.now.left < 2 ^ 31 }
    requires first_few { first + length answers.now < 2 ^ 31 }
    requires before_few { All (λ first. first < 2 ^ 31) before.now }
    ensures { OnOk result (edges.new.items
        ≡ edges.old.items ++ edges_into (prepared_of prepared_rule.now) before.now first 0 answers.now) }
{
    for (position, answer) in answers.iter().enumerate() {
        let poly = nonlinear_update(prepared_rule, position);
        let places = answer_places(alloc, answer, poly, prepared_rule.left)?;
        push_to(edges, first + position as u32, before, &places)?;
    }
    Ok(())
}

// Appends the first place of a rule, if the rule is live.
fn push_first(found: &mut Vec<u32>, live: &[bool], firsts: &[u32], rule: u32) -> Result<(), Memory>
    requires one_each { length firsts.now ≡ length live.now }
    requires within { rule ≤ length live.now }
    ensures { OnOk result (found.new.items ≡ found.old.items ++ firsts_of live.now firsts.now (rule ∷ [])) }
{
    if rule == 0 {
        return Ok(());
    }
    let position = rule as usize - 1;
    if live[position] {
        found.push(firsts[position])?;
    }
    Ok(())
}

// The first places of those of these rules that are live.
fn live_firsts(
    alloc: Global,
    live: &[bool],
    firsts: &[u32],
    rules: &[u32],
) -> Result<Vec<u32>, Memory>
    requires one_each { length firsts.now ≡ length live.now }
    requires within { All (λ e. e ≤ length live.now) rules.now }
    ensures { IfOk result (λ found. found.items ≡ firsts_of live.now firsts.now rules.now) }
{
    let mut found = Vec::new(alloc);
    for rule in rules {
        push_first(&mut found, live, firsts, *rule)?;
    }
    Ok(found)
}

// Appends the edges into the places of the rule at a position, counted from 0, if the rule is live.
fn push_rule(
    alloc: Global,
    edges: &mut Vec<(u32, u32)>,
    g: &Graph,
    prepared_rules: &[RuleRows],
    locals: &[Vec<LocalAnswer>],
    live: &[bool],
    firsts: &[u32],
    position: usize,
) -> Result<(), Memory>
    requires graph { (p : Program) × IsGraphOf g.now p }
    requires fitting { IsFitting (flow_inputs_of prepared_rules.now locals.now live.now firsts.now) (length g.now.links.items) }
    requires within { position < length live.now }
    ensures { OnOk result ((p : Program) → IsGraphOf g.now p → edges.new.items ≡ edges.old.items
        ++ live_edges_at p (flow_inputs_of prepared_rules.now locals.now live.now firsts.now) position) }
{
    if !live[position] {
        return Ok(());
    }
    let before = live_firsts(alloc, live, firsts, g.pre(position as u32 + 1))?;
    push_into(
        alloc,
        edges,
        &prepared_rules[position],
        &before,
        firsts[position],
        &locals[position],
    )
}

/// The edges along which values flow, by the numbers of places: from each place of a live rule that can come just
/// before another live rule, to each place of the other whose answer reads it.
pub(crate) fn edges_of(
    alloc: Global,
    g: &Graph,
    prepared_rules: &[RuleRows],
    locals: &[Vec<LocalAnswer>],
    live: &[bool],
    firsts: &[u32],
) -> Result<Vec<(u32, u32)>, Memory>
    requires graph { (p : Program) × IsGraphOf g.now p }
    requires fitting { IsFitting (flow_inputs_of prepared_rules.now locals.now live.now firsts.now) (length g.now.links.items) }
    ensures { IfOk result (λ edges. (p : Program) → IsGraphOf g.now p → edges.items
        ≡ edges_below p (flow_inputs_of prepared_rules.now locals.now live.now firsts.now) (length live.now)) }
{
    let mut edges = Vec::new(alloc);
    for position in 0..live.len() {
        push_rule(
            alloc,
            &mut edges,
            g,
            prepared_rules,
            locals,
            live,
            firsts,
            position,
        )?;
    }
    Ok(edges)
}
