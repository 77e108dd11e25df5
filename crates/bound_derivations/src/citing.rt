//! Builds the lemmas of derivations, in one pass.

ghost use Rattle.std.specs.Prelude.{◌≡◌, map, IfOk};
ghost use Rattle.model.specs.Programs.{Program};
ghost use Rattle.cert_types.specs.cert_rules.Nodes.{Rank, Never, Cite};
ghost use Rattle.bound_fixpoint.specs.Derivations.{UnreachedBy};
ghost use Rattle.bound_fixpoint.specs.Needs.{lemma_by, lemmas_of};
ghost use Rattle.cert_types.specs.Views.{result_variable_of, proof_of, rank_of};
ghost use Rattle.size_bounds.specs.Lemmas.{uses_of_proofs};
ghost use Rattle.size_bounds.specs.Tables.{number_at};
ghost use Rattle.bound_derivations.specs.Books.{AreDerivedBounds};
ghost use Rattle.bound_derivations.specs.Views.{node_of, derivations_of};

use crate::derivation::{Derivation, Node};
use cert_types::{
    CycleNode, Member, Proof, RankNode, ResultVariable, SpreadNode, UnreachedNode, cite,
};
use model::Memory;
use size_bounds::{Table, uses_of_premises};
use std::alloc::Global;

/// Builds a lemma for each derivation, in order. Its uses cite the lemmas of the derivation's premises, by the numbers
/// of the table: the virtual entry first, if it is needed, and then each other lemma once, in the order of the
/// premises.
///
/// # Errors
///
/// `Memory` where an allocation fails.
pub fn lemmas(
    alloc: Global,
    table: &Table,
    derivations: Vec<Derivation>,
) -> Result<Vec<Proof>, Memory>
    ensures { IfOk result (λ lemmas. (p : Program) → AreDerivedBounds p table.now derivations.items
        → map proof_of lemmas.items ≡ lemmas_of (derivations_of derivations.items)) }
{
    let lemmas = lemmas_by_numbers(alloc, table, derivations)?;
    Ok(lemmas)
}

// A lemma for each derivation, in order, which cites lemmas by the numbers of a table.
fn lemmas_by_numbers(
    alloc: Global,
    table: &Table,
    derivations: Vec<Derivation>,
) -> Result<Vec<Proof>, Memory>
    ensures { IfOk result (λ lemmas. map proof_of lemmas.items
        ≡ map (λ f. lemma_by (number_at table.now) f.node f.premises) (derivations_of derivations.items)) }
{
    let mut lemmas = Vec::new(alloc);
    for derivation in derivations {
        lemmas.push(lemma(alloc, table, derivation)?)?;
    }
    Ok(lemmas)
}

// The lemma of a derivation.
fn lemma(alloc: Global, table: &Table, derivation: Derivation) -> Result<Proof, Memory>
    ensures { IfOk result (λ lemma. proof_of lemma
        ≡ lemma_by (number_at table.now) (node_of derivation.node) (map result_variable_of derivation.premises.items)) }
{
    let Derivation {
        keys: _,
        node,
        premises,
        bound: _,
    } = derivation;
    match node {
        Node::Empty(node) => Ok(Proof::Empty(Box::new(alloc, node)?)),
        Node::Unreached { rule } => unreached_lemma(alloc, table, rule, &premises),
        Node::Never { rule } => never_lemma(alloc, table, rule),
        Node::Rank(node) => rank_lemma(alloc, node, uses_of_premises(alloc, table, &premises)?),
        Node::Spread(
            Member {
                result_variable,
                local,
            },
        ) => {
            let uses = uses_of_premises(alloc, table, &premises)?;
            Ok(Proof::Spread(Box::new(
                alloc,
                SpreadNode {
                    result_variable,
                    local,
                    uses,
                },
            )?))
        }
        Node::Cycle(members) => {
            let uses = uses_of_premises(alloc, table, &premises)?;
            Ok(Proof::Cycle(Box::new(alloc, CycleNode { members, uses })?))
        }
    }
}

// The lemma of a rule whose source is not reached.
fn unreached_lemma(
    alloc: Global,
    table: &Table,
    rule: u32,
    premises: &[ResultVariable],
) -> Result<Proof, Memory>
    ensures { IfOk result (λ lemma. proof_of lemma
        ≡ lemma_by (number_at table.now) (UnreachedBy rule) (map result_variable_of premises.now)) }
{
    let uses = uses_of_premises(alloc, table, premises)?;
    Ok(Proof::Unreached(Box::new(alloc, UnreachedNode { rule, uses })?))
}

// The lemma of the sizes after a rule that never runs.
fn never_lemma(alloc: Global, table: &Table, rule: u32) -> Result<Proof, Memory>
    ensures { IfOk result (λ lemma. proof_of lemma ≡ Never (Cite (number_at table.now rule 0))) }
{
    let number = table.lemma(ResultVariable { rule, place: 0 });
    Ok(Proof::Never(Box::new(alloc, cite(number))?))
}

// The lemma of a ranking function, with its premises.
fn rank_lemma(alloc: Global, node: RankNode, uses: Vec<Proof>) -> Result<Proof, Memory>
    ensures { IfOk result (λ lemma. proof_of lemma ≡ Rank (rank_of node) (uses_of_proofs uses.items)) }
{
    let RankNode {
        rule,
        set,
        den,
        forms,
        moves,
        floor,
        uses: _,
    } = node;
    let whole = RankNode {
        rule,
        set,
        den,
        forms,
        moves,
        floor,
        uses,
    };
    Ok(Proof::Rank(Box::new(alloc, whole)?))
}
