//! The graph of the places of live rules, along which values flow.

ghost use Rattle.std.specs.Prelude.{map, IfOk};
ghost use Rattle.model.specs.Programs.{Program};
ghost use Rattle.cert_types.specs.cert_program.Setting.{setting_of};
ghost use Rattle.cert_types.specs.Views.{result_variable_of};
ghost use Rattle.rvg_components.specs.Listing.{AreAnswersOfProgram, answer_lists, is_flagged, local_from};
ghost use Rattle.rvg_components.specs.FlowGraphs.{IsFlowGraph};

use crate::flowing::edges_of;
use crate::numbering::{first_places, numbered_places, widths_of};
use cert_types::ResultVariable;
use guard_prep::RuleRows;
use its_graph::Graph;
use local_size::LocalAnswer;
use model::Memory;
use std::alloc::Global;

/// The places of live rules in order, and the edges along which values flow, by the positions of the places.
#[derive(Drop)]
pub(crate) struct FlowGraph {
    pub result_variables: Vec<ResultVariable>,
    pub edges: Vec<(u32, u32)>,
}

/// The graph of the places of live rules.
pub(crate) fn flow_graph(
    alloc: Global,
    g: &Graph,
    prepared_rules: &[RuleRows],
    locals: &[Vec<LocalAnswer>],
    live: &[bool],
) -> Result<FlowGraph, Memory>
    requires { (p : Program) × AreAnswersOfProgram p g.now prepared_rules.now (answer_lists locals.now) live.now }
    ensures { IfOk result (λ graph. (p : Program)
        → AreAnswersOfProgram p g.now prepared_rules.now (answer_lists locals.now) live.now
        → IsFlowGraph (setting_of p) (is_flagged live.now) (local_from (answer_lists locals.now))
        (map result_variable_of graph.result_variables.items) graph.edges.items) }
{
    let widths = widths_of(alloc, locals, live)?;
    let firsts = first_places(alloc, &widths)?;
    let result_variables = numbered_places(alloc, &widths)?;
    let edges = edges_of(alloc, g, prepared_rules, locals, live, &firsts)?;
    Ok(FlowGraph {
        result_variables,
        edges,
    })
}
