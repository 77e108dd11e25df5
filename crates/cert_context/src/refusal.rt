//! Why a node isn't accepted.

ghost use Rattle.std.specs.Prelude.{◌≡◌};
ghost use Rattle.cert_context.specs.declared.refusal.NodeFault.TheVariants.{Memory};

use cert_types::Reason;
use std::alloc::{AllocError, AllocFailed};

/// Why a node isn't accepted, where its premises are, or that memory ran out.
#[derive(Clone, Copy, Debug, PartialEq, Eq)]
pub enum NodeFault {
    /// The reason of the first check that fails.
    Refused(Reason),
    /// Memory ran out.
    Memory,
}

impl From<AllocError> for NodeFault {
    ghost from_gives = { λ _ e. e ≡ Memory };

    fn from(_error: AllocError) -> NodeFault {
        NodeFault::Memory
    }
}

impl<T: Drop> From<AllocFailed<T>> for NodeFault {
    ghost from_gives = { λ _ e. e ≡ Memory };

    fn from(_error: AllocFailed<T>) -> NodeFault {
        NodeFault::Memory
    }
}
