//! The points of moves, in the order of their first occurrence.

ghost use Rattle.std.specs.List.{list_any};
ghost use Rattle.std.specs.Prelude.{◌≡◌, ◌==◌, ◌<◌, ◌^◌, length, map, IfOk, OnOk};
ghost use Rattle.while_model.specs.Translation.{with_point, points_of as points_of_moves, number_in as number_of_point};
ghost use Rattle.while_front.specs.Views.{move_of};

use crate::moves::Move;
use poly_terms::Memory;
use std::alloc::Global;

// The points that moves leave or reach, in the order of their first occurrence.
pub(crate) fn points_of(alloc: Global, moves: &[Move]) -> Result<Vec<u32>, Memory>
    ensures { IfOk result (λ points. points.items ≡ points_of_moves (map move_of moves.now)) }
{
    let mut points = Vec::new(alloc);
    for one in moves {
        add_point(&mut points, one.from)?;
        add_point(&mut points, one.to)?;
    }
    Ok(points)
}

// Whether a point is among points.
fn has_point(points: &[u32], k: u32) -> bool
    ensures { result ≡ list_any (λ x. x == k) points.now }
{
    for x in points {
        if *x == k {
            return true;
        }
    }
    false
}

// Appends a point, unless it is among the points.
fn add_point(points: &mut Vec<u32>, k: u32) -> Result<(), Memory>
    ensures { OnOk result (points.new.items ≡ with_point points.old.items k) }
{
    if has_point(points, k) {
        return Ok(());
    }
    points.push(k)?;
    Ok(())
}

// The position of a point in the list, or the list's length if it isn't there.
pub(crate) fn number_in(points: &[u32], k: u32) -> u32
    requires { length points.now < 2 ^ 32 }
    ensures { result ≡ number_of_point points.now k }
{
    let mut number = 0;
    for x in points {
        if *x == k {
            return number;
        }
        number += 1;
    }
    number
}
