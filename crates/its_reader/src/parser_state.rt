//! The states of the parser.

ghost use Rattle.std.specs.Prelude.{◌≡◌};
ghost use Rattle.its_reader.specs.FaultTests.{is_after_rule as plain_ruled, wants_argument as plain_wanting};
ghost use Rattle.its_reader.specs.FaultTests.{wants_left as plain_left, is_between as plain_between};
ghost use Rattle.its_reader.specs.FaultTests.{wants_target_name as plain_targets, is_within as plain_within};
ghost use Rattle.its_reader.specs.FaultTests.{is_in_argument as plain_argues, can_read_argument as plain_goes};
ghost use Rattle.its_reader.specs.FaultTests.{is_costing as plain_costing};
ghost use Rattle.its_reader.specs.PartEnds.{closes_left, closes_right, closes_target, wrap_of_argument};
ghost use Rattle.its_reader.specs.PartEnds.{is_guarding as plain_guarding};

/// The form of a rule's target: a right term inside `Com_1(` and `)`, or alone.
#[derive(Clone, Copy)]
pub(crate) enum Wrap {
    InCom,
    Alone,
}

/// What opens a guard: `:|:`, or `[`.
#[derive(Clone, Copy)]
pub(crate) enum GuardOpening {
    Mark,
    Square,
}

/// A state outside rules; its variants are named for the part that was read last, and so for the pieces that can
/// follow.
#[derive(Clone, Copy)]
pub(crate) enum SectionState {
    /// Nothing, or a section; `(`
    Between,
    /// `(`; a keyword
    Opened,
    /// `GOAL`; `COMPLEXITY`
    GoalNamed,
    /// `COMPLEXITY`; `)`
    GoalRead,
    /// `STARTTERM`; `(`
    StartNamed,
    /// `(`; `FUNCTIONSYMBOLS`
    StartOpened,
    /// `FUNCTIONSYMBOLS`; the start symbol
    StartListed,
    /// The start symbol; `)`
    StartRead,
    /// `)`; `)`
    StartClosed,
    /// `VAR` or a name; a name or `)`
    Listing,
    /// `COMMENT`; the comment
    CommentNamed,
}

/// A state from the beginning of a rule to the end of its left term.
#[derive(Clone, Copy)]
pub(crate) enum SourceState {
    /// `RULES` or a rule; a rule's source, or `)`
    AfterRule,
    /// The source; `(`
    SourceNamed,
    /// `(`; a left argument, or `)`
    LeftOpened,
    /// A left argument; `,` or `)`
    LeftRead,
    /// `,`; a left argument
    LeftParted,
    /// The left term; `->` or `-{`
    SourceClosed,
}

/// A state within the braces of a cost.
#[derive(Clone, Copy)]
pub(crate) enum CostState {
    /// `-{` or a part of the cost; more of it
    Costing,
    /// The cost, which has ended; `}>`
    Costed,
}

/// A state from the arrow to the end of the target.
#[derive(Clone, Copy)]
pub(crate) enum TargetState {
    /// `->` or `}>`; `Com_1` or the target
    Arrowed,
    /// `Com_1`; `(`
    ComNamed,
    /// `(`; the target
    ComOpened,
    /// The target; `(`
    TargetNamed(Wrap),
    /// `(`; a right argument, or `)`
    RightOpened(Wrap),
    /// A part of a right argument, or `,`; more of one
    Arguing(Wrap),
    /// A right argument that has ended; `,` or `)`
    Argued(Wrap),
    /// The right term; `)`
    TargetClosed,
}

/// A state after the target.
#[derive(Clone, Copy)]
pub(crate) enum TailState {
    /// The target; `:|:`, `[`, a rule's source, or `)`
    Targeted,
    /// `:|:`; an atom, a rule's source, or `)`
    GuardMarked,
    /// `[`; an atom, or `]`
    SquareOpened,
    /// Within a guard: more of it can follow, or a piece after it
    Guarding(GuardOpening),
}

/// The parser's state.
#[derive(Clone, Copy)]
pub(crate) enum ParserState {
    InSections(SectionState),
    InLeft(SourceState),
    InCost(CostState),
    InRight(TargetState),
    InTail(TailState),
}

impl SourceState {
    /// Whether a rule can begin.
    pub(crate) fn is_after_rule(self) -> bool
        ensures { result ≡ plain_ruled self }
    {
        matches!(self, SourceState::AfterRule)
    }

    /// Whether a left argument must follow.
    pub(crate) fn wants_argument(self) -> bool
        ensures { result ≡ plain_wanting self }
    {
        matches!(self, SourceState::LeftOpened | SourceState::LeftParted)
    }

    /// Whether a left term has just ended.
    pub(crate) fn is_closed(self) -> bool
        ensures { result ≡ closes_left self }
    {
        matches!(self, SourceState::SourceClosed)
    }
}

impl CostState {
    /// Whether the cost is being read.
    pub(crate) fn is_costing(self) -> bool
        ensures { result ≡ plain_costing self }
    {
        matches!(self, CostState::Costing)
    }
}

impl TargetState {
    /// Whether the target's name must follow.
    pub(crate) fn targets(self) -> bool
        ensures { result ≡ plain_targets self }
    {
        matches!(self, TargetState::Arrowed | TargetState::ComOpened)
    }

    /// Whether the target's name must follow within `Com_1(`.
    pub(crate) fn is_within(self) -> bool
        ensures { result ≡ plain_within self }
    {
        matches!(self, TargetState::ComOpened)
    }

    /// Whether an argument is being read.
    pub(crate) fn reads_argument(self) -> bool
        ensures { result ≡ plain_argues self }
    {
        matches!(self, TargetState::Arguing(_))
    }

    /// Whether an argument can begin or continue.
    pub(crate) fn goes(self) -> bool
        ensures { result ≡ plain_goes self }
    {
        matches!(self, TargetState::RightOpened(_) | TargetState::Arguing(_))
    }

    /// Whether a right term within `Com_1(` has just ended.
    pub(crate) fn is_closed(self) -> bool
        ensures { result ≡ closes_right self }
    {
        matches!(self, TargetState::TargetClosed)
    }

    /// The form of the target whose argument is being read.
    pub(crate) fn argument_wrap(self) -> Option<Wrap>
        ensures { result ≡ wrap_of_argument self }
    {
        match self {
            TargetState::Arguing(wrap) => Some(wrap),
            _ => None,
        }
    }
}

impl TailState {
    /// Whether a target has just ended.
    pub(crate) fn is_targeted(self) -> bool
        ensures { result ≡ closes_target self }
    {
        matches!(self, TailState::Targeted)
    }

    /// Whether a guard is being read.
    pub(crate) fn is_guarding(self) -> bool
        ensures { result ≡ plain_guarding self }
    {
        matches!(self, TailState::Guarding(_))
    }
}

impl ParserState {
    /// Whether a left argument must follow.
    pub(crate) fn wants_left(self) -> bool
        ensures { result ≡ plain_left self }
    {
        match self {
            ParserState::InLeft(state) => state.wants_argument(),
            _ => false,
        }
    }

    /// Whether the state is one between sections.
    pub(crate) fn is_between(self) -> bool
        ensures { result ≡ plain_between self }
    {
        matches!(self, ParserState::InSections(SectionState::Between))
    }
}
