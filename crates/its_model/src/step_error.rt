//! Why a use of a rule is no step.

/// Why a use of a rule is no step that can be taken in 128 bits.
#[derive(Clone, Copy, Debug, PartialEq, Eq)]
pub enum StepError {
    /// There is no such rule, it leaves another symbol, or it has another number of free variables.
    WrongRule,
    /// The atom with this number, from 1, doesn't hold.
    GuardFails { atom: u32 },
    /// A value exceeds 128 bits.
    PassedRange,
}
