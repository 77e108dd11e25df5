//! Which places an answer reads.

ghost use Rattle.std.specs.Prelude.{◌≡◌, ◌++◌, IfOk, OnOk};
ghost use Rattle.cert_types.specs.Composing.{optional_poly};
ghost use Rattle.cert_types.specs.Reading.{places_read as places_of};
ghost use Rattle.cert_types.specs.Views.{side_bound_of};
ghost use Rattle.local_size.specs.LocalAnswers.{local_answer_of};
ghost use Rattle.rvg_components.specs.Reading.{answer_reads};

use cert_types::{SideBound, places_read};
use local_size::LocalAnswer;
use model::Memory;
use poly_terms::Poly;
use std::alloc::Global;

// Appends those of this many places that a side bound reads.
fn push_read(
    alloc: Global,
    places: &mut Vec<u32>,
    side_bound: &SideBound,
    poly: Option<&Poly>,
    left: u32,
) -> Result<(), Memory>
    ensures { OnOk result (places.new.items
        ≡ places.old.items ++ places_of (optional_poly poly.entry) (side_bound_of side_bound.now) left) }
{
    let read = places_read(alloc, side_bound, poly, left)?;
    places.extend_from_slice(&read)
}

/// Those of this many places, counted from 0, that an answer reads: those of the upper side bound, and then those of
/// the lower one. An answer that is unbounded or a limit hit has no side bounds. `poly` is the update, if it has degree
/// 2 or more.
pub(crate) fn answer_places(
    alloc: Global,
    answer: &LocalAnswer,
    poly: Option<&Poly>,
    left: u32,
) -> Result<Vec<u32>, Memory>
    ensures { IfOk result (λ places. places.items ≡ answer_reads (optional_poly poly.entry) (local_answer_of answer.now) left) }
{
    let mut places = Vec::new(alloc);
    if let LocalAnswer::Bound(local) = answer {
        push_read(alloc, &mut places, &local.up, poly, left)?;
        push_read(alloc, &mut places, &local.low, poly, left)?;
    }
    Ok(places)
}
