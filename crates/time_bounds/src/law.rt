//! Laws of analyses: what their reports prove.

ghost use Rattle.time_bounds.specs.AnalysisLaws.{AnalysesAreOne};
ghost use Rattle.time_bounds.specs.Laws.{TotalsHold};
ghost use Rattle.time_bounds.specs.PrintableLaws.{FoundBoundsArePrintable};
ghost use Rattle.time_bounds.specs.SearchLaws.{ProgramSearchesAreRight, ProgramSearchesAreOne};
ghost use Rattle.time_bounds.specs.Whys.{AnalysesGiveReasons};
ghost use Rattle.time_bounds.specs.WorkedWhys.{WhysAreWorkedOut};

/// The law that if what each rule spends is bounded on all runs by the bound of a list, every run costs at most what
/// the total of the list says. The function has no code: its contract is the law.
pub fn totals_hold()
    ensures { TotalsHold }
{}

/// The law that a program has one analysis within a number of pivots: one report, and with it one list of lemmas, one
/// list of gaps, and one number of each entry. The function has no code: its contract is the law.
pub fn analyses_are_one()
    ensures { AnalysesAreOne }
{}

/// The law that each bound that rounds find for a valid program is tidy, over the start arguments alone, and so are the
/// bounds on costs over these, and the total of such bounds: all of them can be printed. The function has no code: its
/// contract is the law.
pub fn found_bounds_are_printable()
    ensures { FoundBoundsArePrintable }
{}

/// The law that the searches of a valid program answer right, which is what a missing bound means. For a rule's rows:
/// multipliers that certify that they have no point, or a point. For a rule over a set: a function that ranks it, or a
/// gap, which shows that no function does. For a component of the places of live rules: a node that gives it a size, or
/// the reason why it has none: a side is unbounded, as a ray shows, a size or a time is missing, a side bound is
/// nonlinear, or the bound is too large. Or a limit hit, which is that of the question itself, or of the feasibility of
/// a rule on which it depends. The function has no code: its contract is the law.
pub fn searches_are_right()
    ensures { ProgramSearchesAreRight }
{}

/// The law that each question to the searches of a program has one answer within a number of pivots. The function has
/// no code: its contract is the law.
pub fn searches_are_one()
    ensures { ProgramSearchesAreOne }
{}

/// The law that each reason in the report of the analysis of a valid program is true of the program, given the times
/// and sizes of the report itself. For a rule without a time: no affine function of the arguments with known sizes
/// ranks it over its set; or the linear program for such a function exceeds the reported limit; or that one has no
/// solution, but one that decides whether a rule of the set has a point exceeds the limit, the first that exceeds any;
/// or the composed time is too large. For a place without a size: the new value exceeds every affine form in the
/// arguments, along a ray and from a point; or a linear program exceeds a limit; or the size depends on one that isn't
/// known, is nonlinear in a loop, grows by a rule without a time, or is too large. For a rule with a cost that has no
/// bound: the cost of one step exceeds every affine form in the arguments; or a linear program exceeds a limit; or a
/// size that its bound reads, or the rule's time, isn't known; or the composed bound is too large. For functions and
/// forms alike a new value or a cost of degree 2 or more counts as a variable of its own, which may be any number, and
/// comparisons of degree 2 or more are ignored. The function has no code: its contract is the law.
pub fn reasons_are_true()
    ensures { AnalysesGiveReasons }
{}

/// Worked values of the meaning of reasons for small programs, with counterexamples. The function has no code: its
/// contract is these values.
pub fn reasons_are_as_worked_out()
    ensures { WhysAreWorkedOut }
{}
