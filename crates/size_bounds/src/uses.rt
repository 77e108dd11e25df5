//! The uses of a node: citations of the lemmas of its premises.

ghost use Rattle.std.specs.Prelude.{◌≡◌, ◌==◌, ◌∷◌, ◌++◌, not, map, filter, IfOk, OnOk};
ghost use Rattle.model.specs.Entries.{is_in};
ghost use Rattle.cert_types.specs.cert_rules.Nodes.{Start, Cite};
ghost use Rattle.cert_types.specs.NumberSets.{HasJust};
ghost use Rattle.cert_types.specs.Views.{proof_of, result_variable_of};
ghost use Rattle.bound_fixpoint.specs.Needs.{once, uses_from, uses_for};
ghost use Rattle.size_bounds.specs.Tables.{number_at};
ghost use Rattle.size_bounds.specs.Lemmas.{uses_of_proofs, with_other};

use crate::table::Table;
use cert_types::{Proof, ResultVariable, cite};
use model::Memory;
use std::alloc::Global;
use std::collections::BTreeSet;

/// The uses of a node with these premises: citations of their lemmas by the numbers of the table, the virtual entry
/// first, if it is needed, and then each other lemma once, in the order of the premises.
///
/// # Errors
///
/// `Memory` where an allocation fails.
pub fn uses_of_premises(
    alloc: Global,
    t: &Table,
    premises: &[ResultVariable],
) -> Result<Vec<Proof>, Memory>
    ensures { IfOk result (λ uses. uses_of_proofs uses.items ≡ uses_for (number_at t.now) (map result_variable_of premises.now)) }
{
    let numbers = numbers_of(alloc, t, premises)?;
    uses_of_lemmas(alloc, &numbers)
}

// The numbers of the lemmas of needed bounds, in order.
fn numbers_of(alloc: Global, t: &Table, premises: &[ResultVariable]) -> Result<Vec<u32>, Memory>
    ensures { IfOk result (λ numbers. numbers.items
        ≡ map (λ k. number_at t.now k.rule k.place) (map result_variable_of premises.now)) }
{
    let mut numbers = Vec::new(alloc);
    for need in premises {
        numbers.push(t.lemma(*need))?;
    }
    Ok(numbers)
}

/// The uses of a node that needs these lemmas: the virtual entry first, if it is among them, and then each other one
/// once, in the order of their first occurrences.
///
/// # Errors
///
/// `Memory` where an allocation fails.
pub fn uses_of_lemmas(alloc: Global, lemmas: &[u32]) -> Result<Vec<Proof>, Memory>
    ensures { IfOk result (λ uses. uses_of_proofs uses.items ≡ uses_from lemmas.now) }
{
    let others = others_once(alloc, lemmas)?;
    if has(lemmas, 0) {
        with_start(alloc, &others)
    } else {
        without_start(alloc, &others)
    }
}

// The virtual entry and these lemmas.
fn with_start(alloc: Global, lemmas: &[u32]) -> Result<Vec<Proof>, Memory>
    ensures { IfOk result (λ uses. map proof_of uses.items ≡ Start ∷ map (λ n. Cite n) lemmas.now) }
{
    let mut uses = Vec::new(alloc);
    uses.push(start())?;
    push_cites(&mut uses, lemmas)?;
    Ok(uses)
}

// These lemmas, each cited.
fn without_start(alloc: Global, lemmas: &[u32]) -> Result<Vec<Proof>, Memory>
    ensures { IfOk result (λ uses. map proof_of uses.items ≡ map (λ n. Cite n) lemmas.now) }
{
    let mut uses = Vec::new(alloc);
    push_cites(&mut uses, lemmas)?;
    Ok(uses)
}

// Appends citations of these lemmas.
fn push_cites(uses: &mut Vec<Proof>, lemmas: &[u32]) -> Result<(), Memory>
    ensures { OnOk result (map proof_of uses.new.items
        ≡ map proof_of uses.old.items ++ map (λ n. Cite n) lemmas.now) }
{
    for lemma in lemmas {
        uses.push(cite(*lemma))?;
    }
    Ok(())
}

// The virtual entry as a node.
fn start() -> Proof
    ensures { proof_of result ≡ Start }
{
    Proof::Start
}

// The lemmas other than 0, each once, in the order in which they come first.
fn others_once(alloc: Global, lemmas: &[u32]) -> Result<Vec<u32>, Memory>
    ensures { IfOk result (λ found. found.items ≡ once (filter (λ n. not (n == 0)) lemmas.now)) }
{
    let mut found = Vec::new(alloc);
    let mut seen = BTreeSet::new(alloc);
    for lemma in lemmas {
        push_other(&mut found, &mut seen, *lemma)?;
    }
    Ok(found)
}

// Appends a lemma to a list and to the set of its numbers, if it isn't 0 and isn't in the set.
fn push_other(found: &mut Vec<u32>, seen: &mut BTreeSet<u32>, lemma: u32) -> Result<(), Memory>
    requires { HasJust seen.old found.old.items }
    ensures found { OnOk result (found.new.items ≡ with_other lemma found.old.items) }
    ensures seen { OnOk result (HasJust seen.new found.new.items) }
{
    if lemma == 0 {
        return Ok(());
    }
    let is_new = seen.insert(lemma)?;
    if !is_new {
        return Ok(());
    }
    found.push(lemma)?;
    Ok(())
}

// Whether a number is in a list.
fn has(numbers: &[u32], number: u32) -> bool
    ensures { result ≡ is_in number numbers.now }
{
    for other in numbers {
        let is_same = number == *other;
        if is_same {
            return true;
        }
    }
    false
}
