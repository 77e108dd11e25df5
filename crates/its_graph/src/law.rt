//! Laws of components and cycles: runs of a program without a cycle, and the order of components.

ghost use Rattle.its_graph.specs.Acyclic.{WithoutCycleEachRuleAtMostOnce};
ghost use Rattle.its_graph.specs.Components.{ListingsAreUnique};
ghost use Rattle.its_graph.specs.Cycles.{CyclesAreInnerLinks};
ghost use Rattle.its_graph.specs.Graphs.{ValidHaveSymbols};
ghost use Rattle.its_graph.specs.WorkedComponents.{ComponentsAreWorkedOut};
ghost use Rattle.its_graph.specs.WorkedParts.{PartsAreWorkedOut};

/// The law that in each run of a program without a cycle every rule occurs at most once, and that the run has at most
/// as many steps as there are rules. The function has no code: its contract is the law.
pub fn without_cycle_each_rule_at_most_once()
    ensures { WithoutCycleEachRuleAtMostOnce }
{}

/// The graph of a program has a cycle exactly if some listed component has both ends of a link.
pub fn cycles_are_inner_links()
    ensures { CyclesAreInnerLinks }
{}

/// A valid program has the symbols that its rules name, so its graph has as many symbols as the program.
pub fn valid_programs_have_symbols()
    ensures { ValidHaveSymbols }
{}

/// A graph has at most one list of its strongly connected components in their order.
pub fn listings_are_unique()
    ensures { ListingsAreUnique }
{}

/// Worked values, on both sides, of nodes in one component, of the components that may come next, and of right lists.
pub fn components_are_as_worked_out()
    ensures { ComponentsAreWorkedOut }
{}

/// Worked values, on both sides, of rules that may be in one part, since they have the same set.
pub fn parts_are_as_worked_out()
    ensures { PartsAreWorkedOut }
{}
