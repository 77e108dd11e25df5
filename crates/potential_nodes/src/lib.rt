//! Nodes that show facts about all runs by potentials: their parts, when they are accepted, and that an accepted node
//! states a fact that holds. The functions here have no code: the contract of each is a law, or values that were worked
//! out by hand.
#![tactic(auto)]

ghost use Rattle.potential_nodes.specs.Certificates.{CertificatesOfProductsHold};
ghost use Rattle.potential_nodes.specs.Checks.{RefusalsAreFailures};
ghost use Rattle.potential_nodes.specs.PlainFacts.{PlainFactsHold, SignedCostsAreCosts};
ghost use Rattle.potential_nodes.specs.Acceptance.{AcceptedNodesHold, AcceptedLemmasHold, FirstRefusalsAreFirst};
ghost use Rattle.potential_nodes.specs.FactMeanings.{FactsBoundRuns};
ghost use Rattle.potential_nodes.specs.Laws.{FallsAreSound, PeaksAreSound};
ghost use Rattle.potential_nodes.specs.Worked.{CertificatesAreWorkedOut, FallsAreWorkedOut, PeaksAreWorkedOut};
ghost use Rattle.potential_nodes.specs.Worked.{CombinationsAreWorkedOut, PhaseNodesAreWorkedOut, LoopsAreBounded};
ghost use Rattle.potential_nodes.specs.WorkedCosts.{CostsAreWorkedOut};

/// A goal that a certificate shows is at least 0 wherever the rows are.
pub fn certificates_of_products_hold()
    ensures { CertificatesOfProductsHold }
{}

/// No check of a list is refused exactly if all checks hold, and a refusal has the reason of the first check that
/// fails.
pub fn refusals_are_failures()
    ensures { RefusalsAreFailures }
{}

/// No lemma of a list is refused exactly if each is accepted after the facts of those before it, and the refusal of a
/// list has the number and the reason of the first lemma that isn't accepted.
pub fn refusals_are_first()
    ensures { FirstRefusalsAreFirst }
{}

/// What signed facts mean for runs: they bound how often a rule occurs, how long a run is, the cost of a rule's steps,
/// and the value at a place after a step, from above, from below and in absolute value.
pub fn facts_bound_runs()
    ensures { FactsBoundRuns }
{}

/// A fact over the absolute values of the start arguments holds as a signed one.
pub fn plain_facts_hold()
    ensures { PlainFactsHold }
{
    signed_bounds::signed_bounds_keep_values();
}

/// The sum in the signed fact on a rule's cost is what the rule's steps spend.
pub fn signed_costs_are_costs()
    ensures { SignedCostsAreCosts }
{
    signed_bounds::signed_bounds_keep_values();
}

/// Worked values of facts on costs as signed facts, which hold or don't.
pub fn costs_are_as_worked_out()
    ensures { CostsAreWorkedOut }
{
    signed_bounds::signed_bounds_keep_values();
}

/// An accepted node that pays for charges states a bound on their sum that holds on all runs.
pub fn falls_are_sound()
    ensures { FallsAreSound }
{
    signed_bounds::within_holds();
}

/// An accepted node that covers a form of a rule states a bound on it that holds at every step.
pub fn peaks_are_sound()
    ensures { PeaksAreSound }
{
    signed_bounds::within_holds();
}

/// An accepted lemma states what holds on all runs, whatever the kind of its node.
pub fn accepted_nodes_hold()
    ensures { AcceptedNodesHold }
{
    signed_bounds::within_holds();
}

/// If no lemma of a list is refused, the facts of all of them hold on all runs.
pub fn accepted_lemmas_hold()
    ensures { AcceptedLemmasHold }
{
    signed_bounds::within_holds();
}

/// Worked values of certificates and of nodes of all kinds, which are accepted, or refused for a reason.
pub fn nodes_are_as_worked_out()
    ensures certificates { CertificatesAreWorkedOut }
    ensures falls { FallsAreWorkedOut }
    ensures peaks { PeaksAreWorkedOut }
    ensures combinations { CombinationsAreWorkedOut }
    ensures phases { PhaseNodesAreWorkedOut }
{}

/// A whole example, a loop that counts A up to B: the rows of its steps are true of them, and the charge 1 of its rule
/// adds up to at most `[B - A]` in each run, but not always to 1 less.
pub fn loops_are_bounded()
    ensures { LoopsAreBounded }
{
    signed_bounds::within_holds();
    signed_bounds::squares_are_safe();
}
