//! The premises of a node that are nodes inside it.

ghost use Rattle.std.specs.Prelude.{◌≡◌, map};
ghost use Rattle.check_file.specs.Children.{children_of};
ghost use Rattle.cert_types.specs.Views.{proof_of};

use cert_types::Proof;
use std::slice::from_ref;

/// The nodes inside a node, in order: its premises.
pub(crate) fn children(proof: &Proof) -> &[Proof]
    ensures { map proof_of result.now ≡ children_of (proof_of proof.now) }
{
    match proof {
        Proof::Cite(_) => &[],
        Proof::Start => &[],
        Proof::Empty(_) => &[],
        Proof::Unreached(node) => &node.uses,
        Proof::Never(child) => from_ref(&**child),
        Proof::Rank(node) => &node.uses,
        Proof::Spread(node) => &node.uses,
        Proof::Cycle(node) => &node.uses,
        Proof::Weaken(child, _) => from_ref(&**child),
        Proof::Cost(node) => &node.uses,
    }
}
