//! The actions of a parse, for the marks of the grammar.

/// The action of a mark.
#[derive(Clone, Copy, Debug, PartialEq, Eq)]
pub enum Action {
    /// The version in the first line is 1.
    FirstVersion,
    /// The version in the first line is 2.
    SecondVersion,
    /// A lemma was read.
    LemmaRead,
    /// A gap was read.
    GapRead,
    /// A node begins, one level deeper than what is open.
    NodeBegins,
    /// The number of a lemma comes next.
    LemmaComes,
    /// A node `cite` was read.
    CiteRead,
    /// A node `start` was read.
    StartRead,
    /// A node `empty` was read.
    EmptyRead,
    /// A node `unreached` was read.
    UnreachedRead,
    /// A node `never` was read.
    NeverRead,
    /// A node `rank` was read.
    RankRead,
    /// A node `spread` was read.
    SpreadRead,
    /// A node `cycle` was read.
    CycleRead,
    /// A node `weaken` was read.
    WeakenRead,
    /// A node `cost` was read.
    CostRead,
    /// The premises of a node begin.
    UsesBegin,
    /// One premise was read.
    UsedRead,
    /// All premises were read.
    UsesRead,
    /// The number of a rule comes next.
    RuleComes,
    /// The number of the rule of a node, of a gap or of a place was read.
    RuleRead,
    /// The number of a rule of a set was read.
    RuleListed,
    /// A natural number comes next.
    NumberComes,
    /// A denominator was read.
    NumberRead,
    /// A list of numbers begins.
    ListBegins,
    /// A number of a list was read.
    Listed,
    /// A number that may have a sign comes next.
    IntegerComes,
    /// A number of a list that may have a sign was read.
    IntegerRead,
    /// The name of a symbol comes next.
    NameComes,
    /// The form of a symbol was read.
    FormRead,
    /// A list of multipliers was read.
    MoveRead,
    /// The number of a place comes next.
    PlaceComes,
    /// A rule and a place were read.
    ResultVariableRead,
    /// An upper side bound was read.
    UpRead,
    /// A lower side bound was read, and with it a place with its local bound.
    LowRead,
    /// The polynomial of an update was read as a side bound.
    PolyRead,
    /// The form of a side bound was read.
    SideBoundFormRead,
    /// A linear side bound was read.
    SideBoundRead,
    /// A cost is shown by multipliers.
    ByEmptyRead,
    /// A cost is shown by a premise that the rule never runs.
    ByNeverRead,
    /// A cost is shown by a side bound.
    BySideBoundRead,
    /// A gap begins.
    GapBegins,
    /// The moves of a gap were read.
    GapMovesRead,
    /// The floor of a gap was read.
    GapFloorRead,
    /// A scaled point was read.
    PointRead,
}

/// The actions in the order of their marks.
#[rattlefmt::skip]
pub const ACTIONS: [Action; 45] = [
    Action::FirstVersion, Action::SecondVersion, Action::LemmaRead, Action::GapRead, Action::NodeBegins,
    Action::LemmaComes, Action::CiteRead, Action::StartRead, Action::EmptyRead, Action::UnreachedRead,
    Action::NeverRead, Action::RankRead, Action::SpreadRead, Action::CycleRead, Action::WeakenRead, Action::CostRead,
    Action::UsesBegin, Action::UsedRead, Action::UsesRead, Action::RuleComes, Action::RuleRead, Action::RuleListed,
    Action::NumberComes, Action::NumberRead, Action::ListBegins, Action::Listed, Action::IntegerComes,
    Action::IntegerRead, Action::NameComes, Action::FormRead, Action::MoveRead, Action::PlaceComes, Action::ResultVariableRead,
    Action::UpRead, Action::LowRead, Action::PolyRead, Action::SideBoundFormRead, Action::SideBoundRead, Action::ByEmptyRead,
    Action::ByNeverRead, Action::BySideBoundRead, Action::GapBegins, Action::GapMovesRead, Action::GapFloorRead,
    Action::PointRead,
];
