//! Checks that the nodes of a file can be numbered.

ghost use Rattle.std.specs.Prelude.{◌↔◌, ◌+◌, ◌≤◌, ◌^◌, length, map, IsTrue};
ghost use Rattle.std.specs.List.{AllByRecursion};
ghost use Rattle.check_file.specs.Children.{nodes_in};
ghost use Rattle.check_file.specs.Counts.{IsCount};
ghost use Rattle.check_file.specs.Files.{CanBeNumbered, HasFewNodes};
ghost use Rattle.cert_types.specs.Views.{proof_of};
ghost use Rattle.cert_types.specs.cert_rules.Numbering.{nodes_of};

use crate::children::children;
use cert_types::{Proof, ProofFile};

// 2^32: the lemmas, gaps and nodes of a file have numbers of 32 bits, so there have to be fewer.
const LIMIT: u64 = 4_294_967_296;

/// Whether a file has fewer than 2^32 lemmas, fewer than 2^32 gaps, and fewer than 2^32 nodes in each lemma, so that
/// all of them can be numbered.
pub fn can_be_numbered(f: &ProofFile) -> bool
    ensures { IsTrue result ↔ CanBeNumbered f.now }
{
    if f.lemmas.len() as u64 >= LIMIT || f.gaps.len() as u64 >= LIMIT {
        return false;
    }
    have_few_nodes(&f.lemmas)
}

// Whether each of these derivations has fewer than 2^32 nodes.
fn have_few_nodes(proofs: &[Proof]) -> bool
    ensures { IsTrue result ↔ AllByRecursion HasFewNodes (map proof_of proofs.now) }
{
    for proof in proofs {
        let fits = has_few_nodes(proof);
        if !fits {
            return false;
        }
    }
    true
}

// Whether a derivation has fewer than 2^32 nodes.
fn has_few_nodes(proof: &Proof) -> bool
    ensures { IsTrue result ↔ HasFewNodes (proof_of proof.now) }
{
    counted(proof, 0) < LIMIT
}

// The number of nodes of a derivation, with those counted before; 2^32 if there are too many.
#[cycle(counting)]
fn counted(proof: &Proof, before: u64) -> u64
    requires { before ≤ 2 ^ 32 }
    ensures { IsCount (before + length (nodes_of (proof_of proof.now))) result }
{
    one_more(all_counted(children(proof), before))
}

// The number of nodes of several derivations, with those counted before; 2^32 if there are too many.
#[cycle(counting)]
fn all_counted(proofs: &[Proof], before: u64) -> u64
    requires { before ≤ 2 ^ 32 }
    ensures { IsCount (before + length (nodes_in (map proof_of proofs.now))) result }
{
    let mut count = before;
    for proof in proofs {
        count = counted(proof, count);
    }
    count
}

// The next number, at most 2^32.
fn one_more(count: u64) -> u64
    requires { count ≤ 2 ^ 32 }
    ensures { IsCount (count + 1) result }
{
    if count < LIMIT { count + 1 } else { LIMIT }
}
