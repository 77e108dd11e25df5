//! Why a part of a lemma isn't accepted.

ghost use Rattle.std.specs.Prelude.{◌≡◌};
ghost use Rattle.check_file.specs.Faults.{at_number, in_lemma};
ghost use Rattle.check_file.specs.declared.refusal.TreeFault.TheVariants as tree;

use crate::error::CheckError;
use cert_context::NodeFault;
use cert_types::Reason;
use std::alloc::{AllocError, AllocFailed};

/// Why a lemma, or a part of one, isn't accepted.
#[derive(Clone, Copy, PartialEq, Eq)]
pub(crate) enum TreeFault {
    /// The number of the first node that isn't accepted, and its first reason.
    Refused { node: u32, reason: Reason },
    /// Memory ran out.
    Memory,
}

impl From<AllocError> for TreeFault {
    ghost from_gives = { λ _ e. e ≡ tree.Memory };

    fn from(_error: AllocError) -> TreeFault {
        TreeFault::Memory
    }
}

impl<T: Drop> From<AllocFailed<T>> for TreeFault {
    ghost from_gives = { λ _ e. e ≡ tree.Memory };

    fn from(_error: AllocFailed<T>) -> TreeFault {
        TreeFault::Memory
    }
}

/// The fault of a node with this number.
pub(crate) fn at_node(fault: NodeFault, node: u32) -> TreeFault
    ensures { result ≡ at_number fault node }
{
    match fault {
        NodeFault::Refused(reason) => TreeFault::Refused { node, reason },
        NodeFault::Memory => TreeFault::Memory,
    }
}

/// The fault of a lemma with this number.
pub(crate) fn at_lemma(fault: TreeFault, lemma: u32) -> CheckError
    ensures { result ≡ in_lemma fault lemma }
{
    match fault {
        TreeFault::Refused { node, reason } => CheckError::No {
            lemma,
            node,
            reason,
        },
        TreeFault::Memory => CheckError::Memory,
    }
}
