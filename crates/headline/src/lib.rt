//! The headline: what `analyse`, `facts`, `best` and `check` write about the program in a file is true of all its runs, and
//! what `replay` writes of one of them, stated for a file that holds the canonical text of a program, and for a file with
//! any text that spells one.
//!
//! Builds on `koat_cli` (the end of a process), `its_text` (which program a text spells), `its_writer` (canonical texts)
//! and `command_line` (the words). Main guarantee: if a process was asked to analyse a file whose text spells a program,
//! and ended with status 0 or 1, a report on the program was appended, whole, to the output, and every bound in it holds
//! on every run of the program (`bounds_of_any_text_hold`, and for canonical texts `written_bounds_hold`); with facts at
//! locations the same, and each of these holds, too (`bounds_with_facts_hold`); with `best` the same of bounds over the
//! start values themselves (`best_bounds_hold`); if one was asked to check a proof against such a file, and ended with
//! status 0, facts, or facts at symbols and statements of claims, were appended, each of which holds on every run
//! (`checked_facts_hold`); if one was asked to replay a run, its tally, each number at most the value beside it
//! (`tallies_are_of_runs`). The functions here have no code: the contract of each is a law, or values that were worked
//! out by hand.
#![tactic(auto)]

ghost use Rattle.headline.specs.AnyText.{BoundsOfAnyTextHold};
ghost use Rattle.headline.specs.Best.{BestBoundsHold, BestBoundsOfAnyTextHold};
ghost use Rattle.headline.specs.Checked.{CheckedFactsHold, FactsOfAnyTextHold};
ghost use Rattle.headline.specs.Headline.{WrittenBoundsHold};
ghost use Rattle.headline.specs.Reasons.{ReportsEndInReasons};
ghost use Rattle.headline.specs.Replayed.{TalliesAreOfRuns, TalliesAreOfRunsOfAnyText};
ghost use Rattle.headline.specs.WithFacts.{BoundsWithFactsHold, BoundsWithFactsOfAnyTextHold};
ghost use Rattle.headline.specs.Words.{WordsHaveRequests};
ghost use Rattle.headline.specs.Worked.{LinesAreWorkedOut, CountdownIsReported};
ghost use Rattle.headline.specs.WorkedTexts.{TextsAreOfCountdown, FactsAreOfCountdown, BoundsWithFactsAreOfCountdown};
ghost use Rattle.headline.specs.WorkedTexts.{StatementsAreOfCountdown, TalliesAreOfCountdown};
ghost use Rattle.headline.specs.WorkedBest.{BestIsOfCountdown};
ghost use Rattle.headline.specs.WorkedCalls.{CallsAreOfWords, EndsAreOfCountdown};

/// The law that the words `analyse` and a name that doesn't begin with `-` request the analysis of the file of this
/// name, with 10,000 pivots for each linear program, that `facts` and such a name request the same with facts, `check`
/// and two such names the check of the proof in the second file, and `replay` the replay of the run in it; and that they
/// request nothing else.
pub fn words_have_requests()
    ensures { WordsHaveRequests }
{}

/// The law that the text of a report on a program whose symbols have names is the text of its bounds, followed by lines
/// that give reasons: each begins with `why ` or with two blanks.
pub fn reports_end_in_reasons()
    ensures { ReportsEndInReasons }
{}

/// The headline. A process whose words after its own name are `analyse` and the name of a file, of which the shelf
/// discloses that it holds the canonical text of a program that can be spelled: if it ended with status 0, a report was
/// appended, whole, to the output, in which each rule has a time, each rule with a cost a bound on it, and which has a
/// total; if it ended with status 1, one in which some of these is missing. On every run of the program, from any
/// integers and by any choice of rules, each rule occurs at most as often as its time says, its steps together cost at
/// most what its cost says, all steps together cost at most what the total says, and the absolute value of each
/// argument after a rule is at most its size, where the report has these.
pub fn written_bounds_hold()
    ensures { WrittenBoundsHold }
{}

/// The headline for any text. A process whose words after its own name are `analyse` and the name of a file, of which
/// the shelf discloses that it holds a text that spells a program, by the grammar of texts alone: what status 0 or 1
/// says of the program is the same as for its canonical text.
pub fn bounds_of_any_text_hold()
    ensures { BoundsOfAnyTextHold }
{}

/// The headline of `facts`. A process whose words after its own name are `facts` and the name of a file, of which the
/// shelf discloses that it holds the canonical text of a program that can be spelled, or any text that spells a program:
/// if it ended with status 0 or 1, lines of facts were appended to the output, and then a report as the headline has it.
/// On every run of the program each fact holds whenever the run is at its symbol, and so does every bound.
pub fn bounds_with_facts_hold()
    ensures canonical { BoundsWithFactsHold }
    ensures any_text { BoundsWithFactsOfAnyTextHold }
{}

/// The headline of `best`. A process whose words after its own name are `best` and the name of a file, of which the shelf
/// discloses that it holds the canonical text of a program that can be spelled, or any text that spells a program: if it
/// ended with status 0 or 1, lines of facts were appended to the output, and then a line for each rule, each rule with a
/// cost, all steps, and each place after each rule, with a bound over the start values or without. On every run of the
/// program each fact holds whenever the run is at its symbol, and so does every bound: a rule occurs at most as often as
/// it says, its steps or all steps together cost at most what it says, and the value of an argument after a rule, or its
/// negation, is at most what it says. With status 0 each rule has a time, each rule with a cost a bound on it, and all
/// steps together one.
pub fn best_bounds_hold()
    ensures canonical { BestBoundsHold }
    ensures any_text { BestBoundsOfAnyTextHold }
{}

/// The headline of `check`. A process whose words after its own name are `check` and the names of two files, of the first of
/// which the shelf discloses that it holds the canonical text of a program that can be spelled, or any text that spells
/// a program: if it ended with status 0, whatever the second file held, a line for each of some facts was appended to
/// the output, and lines that name gaps, and each fact holds on every run of the program, from any integers and by any
/// choice of rules: a rule occurs at most as often as a bound says, its steps together cost at most what a bound says,
/// or the absolute value of an argument after a rule is at most a bound. Or else a line for each of some facts at symbols
/// was appended, of which each holds whenever a run is at its symbol, as those of `facts` do; and one for each of some
/// statements of claims, which hold likewise, over start values that may be negative: bounds on how often a rule occurs,
/// on what its steps or all steps cost together, on an argument after a rule or on its opposite, or that an expression
/// is at least 0 at a symbol.
pub fn checked_facts_hold()
    ensures canonical { CheckedFactsHold }
    ensures any_text { FactsOfAnyTextHold }
{}

/// The headline of `replay`. A process whose words after its own name are `replay` and the names of two files, of the
/// first of which the shelf discloses that it holds the canonical text of a program that can be spelled, or any text that
/// spells a program: if it ended with status 0, the second file holds the text of a run of the program, and the tally of
/// this run was appended to the output, each number beside the value of its bound, and at most that value.
pub fn tallies_are_of_runs()
    ensures canonical { TalliesAreOfRuns }
    ensures any_text { TalliesAreOfRunsOfAnyText }
{}

/// Worked values: which lines give reasons; which reports, which facts and which statements may have been written on a
/// small program with a loop, and which may not; which texts spell it; which tallies of its runs, and which best bounds,
/// may have been written; with which words and on which file a process was called; and with what it ended.
pub fn worked_values_hold()
    ensures lines { LinesAreWorkedOut }
    ensures reports { CountdownIsReported }
    ensures texts { TextsAreOfCountdown }
    ensures facts { FactsAreOfCountdown }
    ensures statements { StatementsAreOfCountdown }
    ensures with_facts { BoundsWithFactsAreOfCountdown }
    ensures tallies { TalliesAreOfCountdown }
    ensures best { BestIsOfCountdown }
    ensures calls { CallsAreOfWords }
    ensures ends { EndsAreOfCountdown }
{}
