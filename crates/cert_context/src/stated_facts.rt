//! Stores the facts of earlier lemmas, each once.

ghost use Rattle.std.specs.Prelude.{◌≡◌};
ghost use Rattle.cert_types.specs.Views.{facts_of};
ghost use Rattle.cert_context.specs.Statements.{stated_at, facts_by};

use cert_types::Fact;

/// The facts of the lemmas before, each list stored once.
#[derive(Drop)]
pub struct StatedFacts {
    /// The facts of the virtual entry, and then those of each lemma that is no citation.
    pub stated: Vec<Vec<Fact>>,
    /// For each lemma the position of its facts; a citation has the position of the lemma that it cites.
    pub lemmas: Vec<u32>,
}

/// The facts that a premise states.
#[derive(Drop)]
pub enum PremiseFacts {
    /// The facts stored at this position.
    StatedFacts(u32),
    /// Facts of its own.
    Own(Vec<Fact>),
}

/// The facts stored at a position.
pub fn facts_at(kept: &StatedFacts, position: u32) -> &[Fact]
    ensures { facts_of result.now ≡ stated_at kept.now position }
{
    match kept.stated.get(position as usize) {
        Some(facts) => facts,
        None => &[],
    }
}

/// The facts that a premise states.
pub fn facts_in<'a>(kept: &'a StatedFacts, used: &'a PremiseFacts) -> &'a [Fact]
    ensures { facts_of result.now ≡ facts_by kept.now used.now }
{
    match used {
        PremiseFacts::StatedFacts(position) => facts_at(kept, *position),
        PremiseFacts::Own(facts) => facts,
    }
}
