//! Prints a derivation: a node with its premises.

ghost use Rattle.std.specs.Prelude.{◌≡◌, ◌++◌, length, map, OnOk};
ghost use Rattle.its_model.specs.Views.{program_of};
ghost use Rattle.cert_types.specs.Views.{proof_of, uses_of};
ghost use Rattle.cert_types.specs.bound_expr.Numbers.{ReadsBelow};
ghost use Rattle.cert_types.specs.bound_expr.Views.{bound_of};
ghost use Rattle.cert_types.specs.cert_rules.Nodes.{Never, Weaken};
ghost use Rattle.cert_text.specs.OverFirst.{AreOverFirst, IsOverFirst};
ghost use Rattle.cert_text.specs.Texts.{has_cost as has_cost_node, have_cost, node_text, uses_text};
ghost use Rattle.cert_text.specs.Texts.{some_has_cost as some_has_cost_of};

use crate::nodes::{push_cost, push_cycle, push_empty, push_named, push_rank, push_spread};
use bound_expr::Bound;
use bound_text::write;
use cert_types::Proof;
use its_model::Program;
use model::Memory;

/// Writes a node with all of its premises. The recursion is as deep as the derivation.
#[cycle(write_proof)]
pub(crate) fn push_proof(text: &mut Vec<u8>, p: &Program, proof: &Proof) -> Result<(), Memory>
    requires { IsOverFirst (length p.now.start_names.items) (proof_of proof.now) }
    ensures { OnOk result
        (text.new.items ≡ text.old.items ++ node_text (program_of p.now) (proof_of proof.now)) }
{
    match proof {
        Proof::Cite(lemma) => push_named(text, b"cite ", *lemma),
        Proof::Start => text.extend_from_slice(b"start"),
        Proof::Empty(node) => push_empty(text, node),
        Proof::Unreached(node) => {
            push_named(text, b"unreached ", node.rule)?;
            push_uses(text, p, &node.uses)
        }
        Proof::Never(child) => push_never(text, p, child),
        Proof::Rank(node) => {
            push_rank(text, p, node)?;
            push_uses(text, p, &node.uses)
        }
        Proof::Spread(node) => {
            push_spread(text, node)?;
            push_uses(text, p, &node.uses)
        }
        Proof::Cycle(node) => {
            push_cycle(text, &node.members)?;
            push_uses(text, p, &node.uses)
        }
        Proof::Weaken(child, bound) => push_weaken(text, p, child, bound),
        Proof::Cost(node) => {
            push_cost(text, node)?;
            push_uses(text, p, &node.uses)
        }
    }
}

// Writes the node of a rule that never runs.
#[cycle(write_proof)]
fn push_never(text: &mut Vec<u8>, p: &Program, child: &Proof) -> Result<(), Memory>
    requires { IsOverFirst (length p.now.start_names.items) (proof_of child.now) }
    ensures { OnOk result
        (text.new.items ≡ text.old.items ++ node_text (program_of p.now) (Never (proof_of child.now))) }
{
    text.extend_from_slice(b"never (")?;
    push_proof(text, p, child)?;
    text.extend_from_slice(b")")
}

// Writes the node of a fact with a weaker bound.
#[cycle(write_proof)]
fn push_weaken(text: &mut Vec<u8>, p: &Program, child: &Proof, bound: &Bound) -> Result<(), Memory>
    requires child { IsOverFirst (length p.now.start_names.items) (proof_of child.now) }
    requires bound { ReadsBelow (length p.now.start_names.items) (bound_of bound.now) }
    ensures { OnOk result (text.new.items ≡ text.old.items
        ++ node_text (program_of p.now) (Weaken (proof_of child.now) (bound_of bound.now))) }
{
    text.extend_from_slice(b"weaken (")?;
    push_proof(text, p, child)?;
    text.extend_from_slice(b") to ")?;
    write(&p.start_names, text, bound)
}

// Writes the premises of a node.
#[cycle(write_proof)]
fn push_uses(text: &mut Vec<u8>, p: &Program, uses: &[Proof]) -> Result<(), Memory>
    requires { AreOverFirst (length p.now.start_names.items) (uses_of (map proof_of uses.now)) }
    ensures { OnOk result
        (text.new.items ≡ text.old.items ++ uses_text (program_of p.now) (uses_of (map proof_of uses.now))) }
{
    let Some((first, others)) = uses.split_first() else {
        return text.extend_from_slice(b" uses {}");
    };
    text.extend_from_slice(b" uses {")?;
    push_proof(text, p, first)?;
    for proof in others {
        text.extend_from_slice(b"; ")?;
        push_proof(text, p, proof)?;
    }
    text.extend_from_slice(b"}")
}

/// Whether some node of a derivation is on a cost. The recursion is as deep as the derivation.
#[cycle(search_costs)]
pub(crate) fn has_cost(proof: &Proof) -> bool
    ensures { result ≡ has_cost_node (proof_of proof.now) }
{
    match proof {
        Proof::Cite(_) | Proof::Start | Proof::Empty(_) => false,
        Proof::Unreached(node) => some_has_cost(&node.uses),
        Proof::Never(child) | Proof::Weaken(child, _) => has_cost(child),
        Proof::Rank(node) => some_has_cost(&node.uses),
        Proof::Spread(node) => some_has_cost(&node.uses),
        Proof::Cycle(node) => some_has_cost(&node.uses),
        Proof::Cost(_) => true,
    }
}

// Whether some node of these derivations is on a cost.
#[cycle(search_costs)]
fn some_has_cost(proofs: &[Proof]) -> bool
    ensures { result ≡ have_cost (uses_of (map proof_of proofs.now)) }
{
    for proof in proofs {
        if has_cost(proof) {
            return true;
        }
    }
    false
}

/// Whether some node of these lemmas is on a cost.
pub(crate) fn any_has_cost(lemmas: &[Proof]) -> bool
    ensures { result ≡ some_has_cost_of (map proof_of lemmas.now) }
{
    for lemma in lemmas {
        if has_cost(lemma) {
            return true;
        }
    }
    false
}
