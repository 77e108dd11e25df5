//! The answers to questions on feasibility and ranking, the limits hit, and why a node or a gap is refused.

use crate::proof::EmptyNode;
use farkas_cert::Scaled;
use linear_forms::LimitCause;

/// The question that a linear program answers.
#[derive(Clone, Copy, Debug, PartialEq, Eq, Hash)]
pub enum Question {
    /// The question whether the rows of the rule have a point.
    Empty { rule: u32 },
    /// The question for a ranking function of the rule.
    Rank { rule: u32 },
    /// The question for a local bound of a place.
    Local { rule: u32, place: u32 },
    /// The question for a bound on the cost of a step by the rule.
    Cost { rule: u32 },
}

/// A question whose linear program passed a limit.
#[derive(Clone, Copy, Debug, PartialEq, Eq, Hash)]
pub struct LimitHit {
    pub question: Question,
    pub cause: LimitCause,
}

/// Whether the rows of a rule have a point.
#[derive(Debug, PartialEq, Eq, Drop)]
pub enum GuardFeasibility {
    /// They have none, as this node shows.
    Empty(EmptyNode),
    /// They have this point.
    Point(Scaled),
    /// It is unknown, since the linear program passed a limit.
    OutOfLimits(LimitHit),
}

/// Why a node is not accepted; place 0 stands for the cost of the rule.
#[derive(Clone, Copy, Debug, PartialEq, Eq, Hash)]
pub enum Reason {
    Shape,
    Empty,
    Reached,
    Zero,
    Move { rule: u32 },
    Floor,
    SideBoundUp { rule: u32, place: u32 },
    SideBoundLow { rule: u32, place: u32 },
    MissingTime { rule: u32 },
    MissingSize { rule: u32, place: u32 },
    Nonlinear { rule: u32, place: u32 },
    Large { nodes: u64 },
    Weaker,
}

/// Why a gap does not hold; place 0 stands for the constant.
#[derive(Clone, Copy, Debug, PartialEq, Eq, Hash)]
pub enum GapFault {
    Shape,
    Move { rule: u32 },
    Floor,
    Kept { rule: u32 },
    Balance { symbol: u32, place: u32 },
    Nothing,
}
