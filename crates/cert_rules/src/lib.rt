//! The rules of certificates: the nodes of derivations of time and size bounds as plain data, when each node is
//! accepted, and why the facts of accepted nodes hold on every run; when a gap (a certificate that no ranking function
//! exists) holds, and why; and at which node or gap a file is refused.
//!
//! Builds on `run_counting`, `rule_forms` and `bound_expr`. Definitions are in `specs/`. Main guarantee: accepted
//! lemmas hold on every run, and a gap that holds excludes every affine function with coefficient 0 at its shut places
//! that ranks its rule on all rational points of the rules' rows (`gaps_exclude_functions`). Acceptance is decided by computation, and so are first reasons
//! (`first_reasons_are_decided`). The functions here have no code: the contract of each is a law or a set of values
//! worked out by hand.
#![tactic(auto)]

ghost use Rattle.cert_rules.specs.Feeding.{LoopsGrow};
ghost use Rattle.cert_rules.specs.GapLaws.{GapsExcludeFunctions, GapChecksAreInLine};
ghost use Rattle.cert_rules.specs.Laws.{AcceptedFactsHold, AcceptedBoundsAreBased};
ghost use Rattle.cert_rules.specs.Printable.{AcceptedFactsArePrintable};
ghost use Rattle.cert_rules.specs.ReasonLaws.{FirstReasonsAreInLine, FirstReasonsAreDecided, LemmasAreDecided};
ghost use Rattle.cert_rules.specs.RefusalLaws.{LemmasAreTheirNodes, RefusalsAreInLine, FileRefusalsAreInLine};
ghost use Rattle.cert_rules.specs.RefusalLaws.{AcceptedFilesHold};
ghost use Rattle.cert_rules.specs.Worked.{CountingIsFaithful, FourLemmasAreAccepted, MistakesAreRefused};
ghost use Rattle.cert_rules.specs.Worked.{PlainNodesAreJudged, FormulasAreWhole};
ghost use Rattle.cert_rules.specs.WorkedSizes.{SizeNodesAreJudged};
ghost use Rattle.cert_rules.specs.WorkedReasons.{ReasonsComeInOrder};
ghost use Rattle.cert_rules.specs.WorkedGaps.{GapsAreJudged};
ghost use Rattle.cert_rules.specs.WorkedGapSets.{GapsOfTwoRulesAreJudged};
ghost use Rattle.cert_rules.specs.WorkedGapShapes.{GapLimitsAreJudged, GapShapesAreJudged, GapFaultsComeInOrder};
ghost use Rattle.cert_rules.specs.WorkedGapShapes.{ShutPlacesAreJudged};
ghost use Rattle.cert_rules.specs.WorkedPrintable.{PrintingIsJudged};
ghost use Rattle.cert_rules.specs.WorkedRefusals.{NodesAreNumbered, LemmasAreRefused, FilesAreJudged};
ghost use Rattle.cert_rules.specs.WorkedCosts.{CostNodesAreJudged, CostReasonsComeInOrder, PayingIsFaithful};

/// Where all lemmas of a list are accepted, every fact of every lemma holds on all runs, whoever made the lemmas.
pub fn accepted_facts_hold()
    ensures { AcceptedFactsHold }
{}

/// Every base in the bounds of these facts is at least 1.
pub fn accepted_bounds_are_based()
    ensures { AcceptedBoundsAreBased }
{}

/// The growth of a loop: if each step multiplies the members by a factor and adds to them, the members are at most the
/// product of the factors of all steps, times the base plus all that the steps added.
pub fn loops_grow()
    ensures { LoopsGrow }
{}

/// Worked values: four lemmas on a program that counts down are accepted, with the expected facts and values; mistakes
/// are refused; each formula has all its parts; and the premises of the laws are met.
pub fn worked_values_hold()
    ensures faithful { CountingIsFaithful }
    ensures accepted { FourLemmasAreAccepted }
    ensures refused { MistakesAreRefused }
    ensures plain { PlainNodesAreJudged }
    ensures sizes { SizeNodesAreJudged }
    ensures whole { FormulasAreWhole }
    ensures reasons { ReasonsComeInOrder }
{}

/// Worked values of nodes on costs, with their first reasons and their facts; and a program with a cost meets the
/// premises of the laws.
pub fn worked_costs_hold()
    ensures faithful { PayingIsFaithful }
    ensures judged { CostNodesAreJudged }
    ensures reasons { CostReasonsComeInOrder }
{}

/// A node has no first reason exactly if it is accepted, and it has at most one.
pub fn first_reasons_are_in_line()
    ensures { FirstReasonsAreInLine }
{}

/// The computed reason is the first reason of the node, and none is computed exactly if the node is accepted.
pub fn first_reasons_are_decided()
    ensures { FirstReasonsAreDecided }
{}

/// The computed test of a list of lemmas decides whether all are accepted, each after those before it.
pub fn lemmas_are_decided()
    ensures { LemmasAreDecided }
{}

/// Where a gap about a set of rules holds, no affine function with coefficient 0 at every shut place ranks its strict
/// rule on all rational points of the rules' rows. The gap alone shows it, whoever made it.
pub fn gaps_exclude_functions()
    ensures { GapsExcludeFunctions }
{}

/// The checks of a gap all pass exactly if it holds, and exactly there it has no first fault; it has at most one.
pub fn gap_checks_are_in_line()
    ensures { GapChecksAreInLine }
{}

/// Worked values: gaps of small programs hold, over one rule and over two, up to the limits of numbers, and with shut
/// places; and changed ones have the expected faults.
pub fn worked_gaps_hold()
    ensures small { GapsAreJudged }
    ensures two_rules { GapsOfTwoRulesAreJudged }
    ensures limits { GapLimitsAreJudged }
    ensures shapes { GapShapesAreJudged }
    ensures order { GapFaultsComeInOrder }
    ensures shut { ShutPlacesAreJudged }
{}

/// A lemma is accepted exactly if each of its nodes is accepted by itself. Lemmas are accepted exactly if there is no
/// node at which they are refused, and there is one such node at most, with one reason. A file is accepted exactly if
/// there is neither such a node nor a gap at which it is refused; there aren't both; and there is one such gap at
/// most, with one fault.
pub fn refusals_are_in_line()
    ensures nodes { LemmasAreTheirNodes }
    ensures lemmas { RefusalsAreInLine }
    ensures files { FileRefusalsAreInLine }
{}

/// In an accepted file every fact of every lemma holds on all runs, and every gap excludes ranking functions on
/// rational points, whoever made the file.
pub fn accepted_files_hold()
    ensures { AcceptedFilesHold }
{}

/// Worked values: nodes have the expected numbers; lemmas with mistakes are refused at the expected node, and files
/// with gaps that don't hold at the expected gap, for the expected reason.
pub fn worked_refusals_hold()
    ensures numbered { NodesAreNumbered }
    ensures lemmas { LemmasAreRefused }
    ensures files { FilesAreJudged }
{}

/// If the setting makes bounds that can be printed, the facts of accepted lemmas have bounds with tidy numbers over the
/// start arguments alone, and these bounds are tidy if each bound that the lemmas write is.
pub fn accepted_facts_are_printable()
    ensures { AcceptedFactsArePrintable }
{}

/// Worked values of facts that can be printed, and of facts that can't.
pub fn worked_printing_holds()
    ensures { PrintingIsJudged }
{}
