//! One entry plus a multiple of another.

ghost use Rattle.std.specs.Prelude.{◌≡◌, MatchResult};
ghost use Rattle.frac128.specs.Narrow.{IsNarrow};
ghost use Rattle.sparse_rows.specs.Entries.{fraction_of, IsPlusMultiple, IsWithin, IsBeyond, IsEntryOf};

use frac128::Frac;
use sparse_merge::{Join, Refused};

/// Combines two entries: the left one plus a multiple of the right one.
#[derive(Drop)]
pub(crate) struct PlusMultiple {
    pub(crate) by: Frac,
    ghost narrow: { IsNarrow by.den },
}

impl Join<(u32, Frac)> for PlusMultiple {
    ghost use Rattle.sparse_merge.specs.Merging.{IsMade};
    ghost use Rattle.sparse_rows.specs.Entries.{fraction_of, IsBeyond, IsJoined};
    ghost use Rattle.sparse_rows.specs.Rows.{column_of};
    ghost use Rattle.sparse_rows.specs.Zeros.{nothing_joined};
    ghost use Rattle.std.specs.Prelude.{MatchResult};

    ghost joins = { λ it _ left right made. IsJoined it.by left right made };

    ghost refuses = { λ it _ left right. IsBeyond (fraction_of left) it.by (fraction_of right) };

    fn join(
        &self,
        place: u32,
        left: Option<(u32, Frac)>,
        right: Option<(u32, Frac)>,
    ) -> Result<Option<(u32, Frac)>, Refused>
        requires left { IsMade column_of (λ _. Unit {0}) place left }
        requires right { IsMade column_of (λ _. Unit {0}) place right }
        ensures joined { MatchResult result (IsJoined self.now.by left right)
            (λ _. IsBeyond (fraction_of left) self.now.by (fraction_of right)) }
        ensures made { MatchResult result (IsMade column_of (λ _. Unit {0}) place) (λ _. Unit {0}) }
    {
        match plus_multiple(value_of(left), self.by, value_of(right)) {
            Ok(sum) => Ok(entry(place, sum)),
            Err(refused) => Err(refused),
        }
    }

    ghost joins_nothing = { λ it _. nothing_joined it.by it.narrow };
}

/// The fraction of an optional entry, or 0 if there is none.
fn value_of(entry: Option<(u32, Frac)>) -> Frac
    ensures { result ≡ fraction_of entry }
{
    match entry {
        Some((_, fraction)) => fraction,
        None => Frac::default(),
    }
}

/// The entry of a fraction, or none if the fraction is 0.
fn entry(place: u32, fraction: Frac) -> Option<(u32, Frac)>
    ensures { IsEntryOf place fraction result }
{
    if fraction.num == 0 {
        None
    } else {
        Some((place, fraction))
    }
}

/// A fraction plus a multiple of another. Error: the product or the sum exceeds 127 bits.
fn plus_multiple(here: Frac, by: Frac, there: Frac) -> Result<Frac, Refused>
    ensures { MatchResult result (λ made. IsPlusMultiple here by there made × IsWithin here by there)
        (λ _. IsBeyond here by there) }
{
    match by.mul(there) {
        Ok(product) => match here.add(product) {
            Ok(sum) => Ok(sum),
            Err(_) => Err(Refused),
        },
        Err(_) => Err(Refused),
    }
}
