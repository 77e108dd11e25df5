//! The actions of a parse, for the marks of the grammar.

/// The role of the next piece, if it has one beyond its class.
#[derive(Clone, Copy, Debug, PartialEq, Eq)]
pub enum Role {
    /// No role beyond the class.
    Plain,
    /// The word that begins the line of a copy.
    CopyWord,
    /// The name of a new copy.
    NewName,
    /// The symbol of the new copy.
    Symbol,
    /// The word that begins the line of a branch.
    BranchWord,
    /// The copy that a branch leaves.
    Source,
    /// The rule of a branch.
    Rule,
    /// The word that begins cases.
    CaseWord,
    /// The copy that a path leads to.
    Target,
    /// A number of a form, or its sign.
    Integer,
    /// A multiplier.
    Multiplier,
}

/// The action of a mark.
#[derive(Clone, Copy, Debug, PartialEq, Eq)]
pub enum Action {
    /// A piece of this role comes next.
    Comes(Role),
    /// A form was read as a fact of the copy.
    FactRead,
    /// The line of a copy was read.
    CopyRead,
    /// A list of multipliers was read, for one of the facts of the copy that a path leads to.
    ListRead,
    /// Cases that lead to a copy were read.
    ToRead,
    /// Cases that lead nowhere were read.
    NeverRead,
    /// The form of a test was read.
    TestRead,
    /// The cases in which the form of a test is at least 0 were read.
    YesRead,
    /// The other cases of a test were read.
    NoRead,
    /// The line of a branch was read.
    BranchRead,
}

/// The actions in the order of their marks.
#[rattlefmt::skip]
pub const ACTIONS: [Action; 19] = [
    Action::Comes(Role::CopyWord), Action::Comes(Role::NewName), Action::Comes(Role::Symbol),
    Action::Comes(Role::BranchWord), Action::Comes(Role::Source), Action::Comes(Role::Rule),
    Action::Comes(Role::CaseWord), Action::Comes(Role::Target), Action::Comes(Role::Integer),
    Action::Comes(Role::Multiplier), Action::FactRead, Action::CopyRead, Action::ListRead, Action::ToRead,
    Action::NeverRead, Action::TestRead, Action::YesRead, Action::NoRead, Action::BranchRead,
];
