//! The components of the graph of places.

ghost use Rattle.std.specs.Prelude.{map, All, IfOk};
ghost use Rattle.model.specs.Programs.{Program};
ghost use Rattle.guard_prep.specs.its_model.Valid.{IsValid};
ghost use Rattle.its_graph.specs.Graphs.{IsGraphOf};
ghost use Rattle.cert_types.specs.cert_program.Setting.{setting_of};
ghost use Rattle.cert_types.specs.Composing.{AreRowsOf};
ghost use Rattle.rvg_components.specs.Listing.{AreComponents, AreLocalsFor, SaysWhetherItLoops, is_flagged, local_from};
ghost use Rattle.rvg_components.specs.Listing.{members_of, answer_lists, AreAnswersOfProgram};

use crate::component::Component;
use crate::graph::flow_graph;
use crate::inside::{own_edges, placed};
use bound_expr::Memory;
use guard_prep::RuleRows;
use its_graph::Graph;
use local_size::LocalAnswer;
use std::alloc::Global;

/// The strongly connected components of the places of live rules. A value flows from one place into another if the rule
/// of the first can come just before that of the second and a side bound of the second reads the first. No value flows
/// into a place without side bounds: one that is unbounded, or whose linear programs hit a limit. Each component comes
/// after all those from which values flow into it; of several that may come next, the one with the least rule and place
/// comes first; and its members ascend.
///
/// # Errors
///
/// `Memory` if an allocation fails.
pub fn components(
    alloc: Global,
    g: &Graph,
    prepared_rules: &[RuleRows],
    locals: &[Vec<LocalAnswer>],
    live: &[bool],
) -> Result<Vec<Component>, Memory>
    requires { (p : Program) × AreAnswersOfProgram p g.now prepared_rules.now (answer_lists locals.now) live.now }
    ensures components { IfOk result (λ found. (p : Program)
        → AreAnswersOfProgram p g.now prepared_rules.now (answer_lists locals.now) live.now
        → AreComponents (setting_of p) (is_flagged live.now) (local_from (answer_lists locals.now))
        (map members_of found.items)) }
    ensures looping { IfOk result (λ found. (p : Program)
        → AreAnswersOfProgram p g.now prepared_rules.now (answer_lists locals.now) live.now
        → All (SaysWhetherItLoops (setting_of p) (local_from (answer_lists locals.now))) found.items) }
{
    let graph = flow_graph(alloc, g, prepared_rules, locals, live)?;
    let nodes = graph.result_variables.len();
    let components = its_graph::components(alloc, nodes as u32, &graph.edges)?;
    let own = own_edges(alloc, nodes, &graph.edges)?;
    placed(alloc, &graph.result_variables, &own, &components)
}
