//! The actions of the marks of the grammar.

/// Which number is read.
#[derive(Clone, Copy, Debug, PartialEq, Eq)]
pub enum Field {
    /// A coefficient, or how often a summand is taken, without its sign.
    Size,
    /// The rule of a lemma or of a claim.
    Rule,
    /// The rule of a move, a payment, a charge or a counted rule.
    Step,
    /// The place of a claim.
    Place,
    /// A fact, and a second one.
    First,
    Second,
    /// The row of a summand, and a second one.
    Row,
    Other,
    /// The variable of a summand.
    Variable,
    /// The common denominator of functions.
    Den,
    /// The number that a polynomial is at most.
    Amount,
    /// The base of a power, and what a bound is divided by.
    Base,
    Divisor,
}

/// What the next piece is, where it says more than its class.
#[derive(Clone, Copy, Debug, PartialEq, Eq)]
pub enum Role {
    /// Its class alone.
    Plain,
    /// The word that begins a line.
    LineWord,
    /// The symbol of a function.
    Symbol,
    /// A number.
    Number(Field),
    /// A variable of a monomial.
    Factor,
    /// A number of a list of facts.
    Listed,
    /// A bound that is a number.
    Constant,
    /// The word that begins another bound.
    BoundWord,
}

/// A kind of bound with parts.
#[derive(Clone, Copy, Debug, PartialEq, Eq)]
pub enum Opener {
    Sum,
    Product,
    Maximum,
    Minimum,
    Quotient,
    Root,
    Power,
}

/// The kinds of lemmas.
#[derive(Clone, Copy, Debug, PartialEq, Eq)]
pub enum LemmaKind {
    Fall,
    Peak,
    Row,
    Times,
    Least,
    Add,
    Among,
    Sized,
    Phases,
}

/// The kinds of claims.
#[derive(Clone, Copy, Debug, PartialEq, Eq)]
pub enum ClaimKind {
    Time,
    Cost,
    Total,
    Above,
    Below,
}

/// The action of a mark.
#[derive(Clone, Copy, Debug, PartialEq, Eq)]
pub enum Action {
    /// A piece of this role comes next.
    Comes(Role),
    /// The next number has a `-`.
    Negative,
    /// A monomial was read.
    MonomialRead,
    /// A summand of a row, of two rows, or of a variable and a row with its opposite was read.
    OneRowRead,
    TwoRowsRead,
    ZeroRowRead,
    /// A certificate was read.
    CertificateRead,
    /// The function of a symbol was read.
    FunctionRead,
    /// The first functions of two phases were read.
    FunctionsRead,
    /// A move keeps the function, or sets it anew.
    Keeps,
    Resets,
    /// The gain of a move or the amount of a payment was read.
    GainRead,
    /// The fact that a move cites was read.
    CitedRead,
    /// A move, a payment, a charge, a move of two phases or a counted rule was read.
    MoveRead,
    PaymentRead,
    ChargeRead,
    PhaseMoveRead,
    CountedRead,
    /// The polynomial of a lemma was read.
    FormRead,
    /// The certificate of a lemma was read.
    FloorRead,
    /// A claim cites one fact, or one for each charge.
    ByOne,
    ByEach,
    /// The bound of a line begins.
    BoundBegins,
    /// A bound was read that is the positive part of a polynomial.
    PartRead,
    /// The parts of a bound begin.
    Opens(Opener),
    /// All parts of a bound were read.
    Closes,
    /// A lemma was read.
    LemmaRead(LemmaKind),
    /// A claim was read.
    ClaimRead(ClaimKind),
}

/// The actions in the order of their marks.
#[rattlefmt::skip]
pub const ACTIONS: [Action; 64] = [
    Action::Comes(Role::LineWord), Action::Comes(Role::Symbol), Action::Comes(Role::Factor),
    Action::Comes(Role::Listed), Action::Comes(Role::Constant), Action::Comes(Role::BoundWord),
    Action::Comes(Role::Number(Field::Size)), Action::Comes(Role::Number(Field::Rule)),
    Action::Comes(Role::Number(Field::Step)), Action::Comes(Role::Number(Field::Place)),
    Action::Comes(Role::Number(Field::First)), Action::Comes(Role::Number(Field::Second)),
    Action::Comes(Role::Number(Field::Row)), Action::Comes(Role::Number(Field::Other)),
    Action::Comes(Role::Number(Field::Variable)), Action::Comes(Role::Number(Field::Den)),
    Action::Comes(Role::Number(Field::Amount)), Action::Comes(Role::Number(Field::Base)),
    Action::Comes(Role::Number(Field::Divisor)), Action::Negative, Action::MonomialRead, Action::OneRowRead,
    Action::TwoRowsRead, Action::ZeroRowRead, Action::CertificateRead, Action::FunctionRead, Action::FunctionsRead,
    Action::Keeps, Action::Resets, Action::GainRead, Action::CitedRead, Action::MoveRead, Action::PaymentRead,
    Action::ChargeRead, Action::PhaseMoveRead, Action::CountedRead, Action::FormRead, Action::FloorRead,
    Action::ByOne, Action::ByEach, Action::BoundBegins, Action::PartRead, Action::Opens(Opener::Sum),
    Action::Opens(Opener::Product), Action::Opens(Opener::Maximum), Action::Opens(Opener::Minimum),
    Action::Opens(Opener::Quotient), Action::Opens(Opener::Root), Action::Opens(Opener::Power), Action::Closes,
    Action::LemmaRead(LemmaKind::Fall), Action::LemmaRead(LemmaKind::Peak), Action::LemmaRead(LemmaKind::Row),
    Action::LemmaRead(LemmaKind::Times), Action::LemmaRead(LemmaKind::Least), Action::LemmaRead(LemmaKind::Add),
    Action::LemmaRead(LemmaKind::Among), Action::LemmaRead(LemmaKind::Sized), Action::LemmaRead(LemmaKind::Phases),
    Action::ClaimRead(ClaimKind::Time), Action::ClaimRead(ClaimKind::Cost), Action::ClaimRead(ClaimKind::Total),
    Action::ClaimRead(ClaimKind::Above), Action::ClaimRead(ClaimKind::Below),
];
