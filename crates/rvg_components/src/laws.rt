//! Worked values of the graph of places.

ghost use Rattle.rvg_components.specs.WorkedFlows.{FlowsAreWorkedOut, LivePlacesAreWorkedOut, LoopsAreWorkedOut};
ghost use Rattle.rvg_components.specs.WorkedFlows.{FlowComponentsAreWorkedOut};

/// Worked values, on both sides, for small programs: the places between which values flow, which places are nodes,
/// which loop, and the components in order. Its only code is the call of the law about the same graphs by numbers; its
/// contract is the law.
pub fn flows_are_as_worked_out()
    ensures flows { FlowsAreWorkedOut }
    ensures places { LivePlacesAreWorkedOut }
    ensures loops { LoopsAreWorkedOut }
    ensures components { FlowComponentsAreWorkedOut }
{
    its_graph::components_are_as_worked_out();
}
