//! Why a lemma isn't accepted.

/// The first check of a lemma that fails, with the number of the rule that it is about.
#[derive(Clone, Copy)]
pub enum Reason {
    /// The shape is wrong: a limit, an order, a symbol, a variable or a cited fact.
    BadShape,
    /// A rule that leads to a symbol with a function and may occur has no move.
    MissingTime(u32),
    /// The certificate of a move doesn't show it.
    BadMove(u32),
    /// The certificate of a payment, of a covered form or of a bound by a number doesn't show it.
    BadFloor(u32),
    /// The certificate that an amount isn't negative doesn't show it.
    BadAmount(u32),
    /// A gain may be over 0, and no fact is cited for it.
    BadGain(u32),
    /// The stated bound may be too low.
    LowBound,
}
