//! The table of bounds that the rounds keep.

ghost use Rattle.std.specs.Prelude.{◌≡◌, ℕ};
ghost use Rattle.cert_types.specs.Lookups.{optional_bound};
ghost use Rattle.size_bounds.specs.Tables.{entry_at, optional_stored, bound_stored, lemma_stored, stored_time};
ghost use Rattle.size_bounds.specs.Tables.{stored_size, stored_in, number_at, table_of};

use bound_expr::Bound;
use cert_types::{Known, ResultVariable};
use outcome::Stored;

/// The known bounds: a time of each rule or none, and a size of each place after each rule or none, each with the
/// number of the lemma that states it. The virtual entry has the index 0.
#[derive(Debug, Drop)]
pub struct Table {
    pub times: Vec<Option<Stored>>,
    pub sizes: Vec<Vec<Option<Stored>>>,
}

impl Table {
    /// The time of a rule with its lemma, where it is known.
    pub fn stored_time(&self, rule: u32) -> Option<&Stored>
        ensures { optional_stored result ≡ stored_time self.now rule }
    {
        stored_at(&self.times, rule as usize)
    }

    /// The size of a place after a rule with its lemma, where it is known. Places count from 1.
    pub fn stored_size(&self, rule: u32, place: u32) -> Option<&Stored>
        ensures { optional_stored result ≡ stored_size self.now rule place }
    {
        if place == 0 {
            return None;
        }
        if rule as usize >= self.sizes.len() {
            return None;
        }
        stored_at(&self.sizes[rule as usize], place as usize - 1)
    }

    /// The bound stored for a key, if there is one: the time of a rule at place 0, and its sizes.
    pub fn stored(&self, key: ResultVariable) -> Option<&Stored>
        ensures { optional_stored result ≡ stored_in self.now key.rule key.place }
    {
        if key.place == 0 {
            return self.stored_time(key.rule);
        }
        self.stored_size(key.rule, key.place)
    }

    /// The number of the lemma that states the bound of a key; 0 for the virtual entry, and where no bound is known.
    pub fn lemma(&self, key: ResultVariable) -> u32
        ensures { result ≡ number_at self.now key.rule key.place }
    {
        lemma_in(self.stored(key))
    }
}

impl Known for Table {
    ghost table = { table_of };

    fn time(&self, rule: u32) -> Option<&Bound> {
        bound_in(self.stored_time(rule))
    }

    fn size(&self, rule: u32, place: u32) -> Option<&Bound> {
        bound_in(self.stored_size(rule, place))
    }
}

// The entry at a position, if there is one.
fn stored_at(bounds: &[Option<Stored>], position: usize) -> Option<&Stored>
    ensures { optional_stored result ≡ entry_at bounds.now position }
{
    if position >= bounds.len() {
        return None;
    }
    match &bounds[position] {
        Some(stored) => Some(stored),
        None => None,
    }
}

// The bound of an entry.
fn bound_in(stored: Option<&Stored>) -> Option<&Bound>
    ensures { optional_bound result ≡ bound_stored (optional_stored stored.entry) }
{
    match stored {
        Some(s) => Some(&s.bound),
        None => None,
    }
}

// The number of the lemma of an entry.
fn lemma_in(stored: Option<&Stored>) -> u32
    ensures { result ≡ lemma_stored (optional_stored stored.entry) }
{
    match stored {
        Some(s) => s.lemma,
        None => 0,
    }
}
