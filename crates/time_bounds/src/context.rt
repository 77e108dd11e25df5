//! The context of an analysis: the program, its graph, the rows of its rules, and whether they have a point.

ghost use Rattle.std.specs.Prelude.{◌≡◌, ◌<◌, ◌-◌, ◌^◌, length, IfOk};
ghost use Rattle.std.specs.List.{All};
ghost use Rattle.its_model.specs.Valid.{IsValid};
ghost use Rattle.its_model.specs.Views.{program_of};
ghost use Rattle.cert_types.specs.Composing.{AreRowsOf};
ghost use Rattle.rank_search.specs.rule_questions.EmptyAnswers.{IsPrepared};
ghost use Rattle.time_bounds.specs.Questions.{AreAnswersFrom, BelongsTogether};

use cert_types::GuardFeasibility;
use guard_prep::{RuleRows, rows};
use its_graph::Graph;
use its_model::Program;
use model::Memory;
use rank_search::guard_feasibility;
use std::alloc::Global;

/// The context of an analysis: the program, its graph, the rows of each rule, for each rule whether its rows have a
/// point, and how many pivots a linear program may take.
#[derive(Drop)]
pub(crate) struct Context<'a> {
    pub alloc: Global,
    pub program: &'a Program,
    pub graph: Graph,
    pub prepared_rules: Vec<RuleRows>,
    pub empties: Vec<GuardFeasibility>,
    pub pivots: u32,
}

/// Prepares each rule, and decides whether its rows have a point.
pub(crate) fn context_of<'a>(
    alloc: Global,
    program: &'a Program,
    pivots: u32,
) -> Result<Context<'a>, Memory>
    requires { IsValid (program_of program.now) }
    ensures ready { IfOk result (λ cx. BelongsTogether cx) }
    ensures program { IfOk result (λ cx. cx.program.now ≡ program.now) }
    ensures pivots { IfOk result (λ cx. cx.pivots ≡ pivots) }
{
    let graph = Graph::new(alloc, program)?;
    let prepared_rules = all_rows(alloc, program)?;
    let empties = all_empties(alloc, &prepared_rules, pivots)?;
    Ok(Context {
        alloc,
        program,
        graph,
        prepared_rules,
        empties,
        pivots,
    })
}

// The rows of each rule, in order.
fn all_rows(alloc: Global, p: &Program) -> Result<Vec<RuleRows>, Memory>
    requires { IsValid (program_of p.now) }
    ensures { IfOk result (λ prepared_rules. AreRowsOf prepared_rules.items (program_of p.now)) }
{
    let mut prepared_rules = Vec::new(alloc);
    for rule in &p.rules {
        prepared_rules.push(rows(alloc, rule)?)?;
    }
    Ok(prepared_rules)
}

// Whether the rows of each rule have a point, in order.
fn all_empties(
    alloc: Global,
    prepared_rules: &[RuleRows],
    pivots: u32,
) -> Result<Vec<GuardFeasibility>, Memory>
    requires prepared { All IsPrepared prepared_rules.now }
    requires few { length prepared_rules.now < 2 ^ 32 - 1 }
    ensures { IfOk result (λ answers. AreAnswersFrom pivots 1 prepared_rules.now answers.items) }
{
    let mut answers = Vec::new(alloc);
    for (position, prepared_rule) in prepared_rules.iter().enumerate() {
        answers.push(guard_feasibility(alloc, prepared_rule, position as u32 + 1, pivots)?)?;
    }
    Ok(answers)
}
