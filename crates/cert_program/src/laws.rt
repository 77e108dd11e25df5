//! The setting of a program is true of it, and what follows for accepted lemmas, files and gaps.

ghost use Rattle.cert_program.specs.GapLaws.{GapsExcludeFunctions};
ghost use Rattle.cert_program.specs.Laws.{SettingsAreFaithful, AcceptedFactsHold, PolynomialsAreNonlinear};
ghost use Rattle.cert_program.specs.Laws.{SmallBoundsAreRewritten, AcceptedFilesHold, SettingsAreTidying};
ghost use Rattle.cert_program.specs.Laws.{AcceptedFactsArePrintable, FormsAreThoseOfSettings};
ghost use Rattle.cert_program.specs.Worked.{SettingsAreAsWorkedOut};
ghost use Rattle.cert_program.specs.WorkedGaps.{RankedSetsAreAsWorkedOut, GapsOfProgramsAreJudged};

/// The setting of a valid program is true of it. Like all functions here, this one has no code: its contract is the
/// law.
pub fn settings_are_faithful()
    ensures { SettingsAreFaithful }
{}

/// Where all lemmas of a list are accepted for a valid program, every fact of every lemma holds on all of its runs,
/// whoever made the lemmas.
pub fn accepted_facts_hold()
    ensures { AcceptedFactsHold }
{}

/// Where a file is accepted for a valid program, every fact of every lemma holds on all runs of the program, and no
/// affine function with coefficient 0 at a gap's shut places ranks the gap's strict rule over its set, whoever made the
/// file.
pub fn accepted_files_hold()
    ensures { AcceptedFilesHold }
{}

/// The forms of a rule that questions and gaps use are the rows and new values over which nodes are checked.
pub fn forms_are_those_of_settings()
    ensures { FormsAreThoseOfSettings }
{}

/// The setting of a valid program makes bounds that can be printed. So the facts of lemmas that are accepted for it
/// have bounds with tidy numbers over its start arguments alone, and these bounds are tidy if each bound that the
/// lemmas write is.
pub fn accepted_facts_are_printable()
    ensures tidying { SettingsAreTidying }
    ensures printable { AcceptedFactsArePrintable }
{}

/// A place has a polynomial exactly if the expanded update there has degree 2 or more.
pub fn polynomials_are_nonlinear()
    ensures { PolynomialsAreNonlinear }
{}

/// Rewriting a composed bound within the limits agrees with acceptance: it gives the rewritten bound exactly if the
/// bound is small, and else the number of nodes that the reason of its refusal names.
pub fn small_bounds_are_rewritten()
    ensures { SmallBoundsAreRewritten }
{}

/// Worked values of the setting of a small program.
pub fn settings_are_as_worked_out()
    ensures { SettingsAreAsWorkedOut }
{}

/// Worked values of the rules of small programs as forms, of sets of these rules and of gaps over them; and a valid
/// program has a gap that holds.
pub fn gaps_are_as_worked_out()
    ensures sets { RankedSetsAreAsWorkedOut }
    ensures gaps { GapsOfProgramsAreJudged }
{}

/// Where a gap holds for a valid program, no affine function with coefficient 0 at its shut places ranks its strict
/// rule over its set on all rational points of the rules' rows, whoever made the gap.
pub fn gaps_exclude_functions()
    ensures { GapsExcludeFunctions }
{}
