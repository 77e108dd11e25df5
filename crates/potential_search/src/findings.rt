//! What a search found.

use potential_types::SignedLemma;

/// The lemmas that a search found, and which of them bounds what, by their numbers from 1.
#[derive(Drop)]
pub struct Findings {
    /// In order: a lemma cites earlier ones.
    pub lemmas: Vec<SignedLemma>,
    /// The lemma on how often rule t occurs, at t - 1.
    pub times: Vec<Option<u32>>,
    /// The lemma on what the steps by rule t cost together, at t - 1; none where no cost is written.
    pub costs: Vec<Option<u32>>,
    /// The lemma on what all steps of a run cost together, a step by a rule without a written cost costing 1.
    pub total: Option<u32>,
    /// The lemmas on the value of each place behind rule t, at t - 1, and on its opposite.
    pub above: Vec<Vec<Option<u32>>>,
    pub below: Vec<Vec<Option<u32>>>,
    /// How many questions were asked.
    pub asked: u32,
    /// How much work is left, as numbers that pivots go through.
    pub work: u64,
}
