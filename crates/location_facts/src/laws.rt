//! Laws of which facts are candidates, when a rule implies a fact, which facts are kept, what proved facts imply, which
//! fault is the first, and what strengthening changes; and worked values of all this. No function here has code: the
//! contract of each is a law.

ghost use Rattle.location_facts.specs.Laws.{CandidatesAreListed, ProvedFactsHold, FaultsAreDecided};
ghost use Rattle.location_facts.specs.Laws.{StrengtheningChangesNoRun, KeptFactsAreOne, AnswersDecideImplied};
ghost use Rattle.location_facts.specs.Worked.{FactsAreWorkedOut};
ghost use Rattle.location_facts.specs.WorkedFaults.{FaultsAreWorkedOut};
ghost use Rattle.location_facts.specs.WorkedKept.{KeptFactsAreWorkedOut};

/// The list of candidates contains each candidate fact, in order, and no others.
pub fn candidates_are_listed()
    ensures { CandidatesAreListed }
{}

/// Facts with faultless proofs are candidates and hold on every run of a valid program, whatever their origin.
pub fn proved_facts_hold()
    ensures { ProvedFactsHold }
{}

/// Facts and their proofs have at most one first fault; and if they have one, they aren't faultless.
pub fn faults_are_decided()
    ensures { FaultsAreDecided }
{}

/// Strengthened by candidate facts that hold on every run, a valid program is still valid and has the same runs, and
/// each bound of the strengthened program holds for the program itself.
pub fn strengthening_changes_no_run()
    ensures { StrengtheningChangesNoRun }
{}

/// For each number of pivots, at most one list of facts is kept.
pub fn kept_facts_are_one()
    ensures { KeptFactsAreOne }
{}

/// A rule implies a fact exactly if the answer to one of its two linear programs is a solution, and not a dual or a hit
/// limit.
pub fn answers_decide_implied()
    ensures { AnswersDecideImplied }
{}

/// Worked values, on both sides, of which facts are candidates, which hold, of their rows, their certificates, and
/// their atoms.
pub fn facts_are_as_worked_out()
    ensures { FactsAreWorkedOut }
{}

/// Worked values of faultless proofs, and of the first faults of others.
pub fn faults_are_as_worked_out()
    ensures { FaultsAreWorkedOut }
{}

/// Worked values of which facts of small programs are kept, and of the linear programs for them, with solutions and
/// duals.
pub fn kept_facts_are_as_worked_out()
    ensures { KeptFactsAreWorkedOut }
{}
