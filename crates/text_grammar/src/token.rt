//! Pieces with their positions, and refusals.

ghost use Rattle.std.specs.Prelude.{◌≡◌};
ghost use Rattle.text_grammar.specs.declared.token.Refusal.TheVariants.{Memory};

use std::alloc::{AllocError, AllocFailed};

/// A piece, the position of its first byte, and the position after its last byte.
#[derive(Clone, Copy, Debug, PartialEq, Eq)]
pub struct Token<P> {
    pub piece: P,
    pub at: u64,
    pub upto: u64,
}

/// A refusal of a kind, at a position.
#[derive(Clone, Copy, Debug, PartialEq, Eq)]
pub struct Fault<K> {
    pub kind: K,
    pub at: u64,
}

/// Why a text isn't read.
#[derive(Clone, Copy, Debug, PartialEq, Eq)]
pub enum Refusal<K> {
    /// The first refusal of the text.
    Refuses(Fault<K>),
    /// Memory ran out.
    Memory,
}

impl<K> From<AllocError> for Refusal<K> {
    ghost from_gives = { λ _ e. e ≡ Memory };

    fn from(_error: AllocError) -> Refusal<K> {
        Refusal::Memory
    }
}

impl<K, T: Drop> From<AllocFailed<T>> for Refusal<K> {
    ghost from_gives = { λ _ e. e ≡ Memory };

    fn from(_error: AllocFailed<T>) -> Refusal<K> {
        Refusal::Memory
    }
}
