//! Joins runs of neighbouring parts.

ghost use Rattle.std.specs.Prelude.{◌≡◌, ◌++◌, IfOk, OnOk};
ghost use Rattle.bound_expr.specs.Views.{bound_of, bounds_of};
ghost use Rattle.bound_table.specs.Runs.{runs_of, all_runs_joined, last_belongs};
ghost use Rattle.bound_table.specs.Joining.{belong_together as belong_to_one, run_joined};

use crate::kinds::Joining;
use crate::likes::{is_like, push_likes};
use crate::powers::{have_one_base, push_powers};
use bound_expr::{Bound, Memory};
use std::alloc::Global;
use std::mem;

// Joins each longest run of neighbours that belong together, in its own position.
pub(crate) fn runs_joined(
    alloc: Global,
    joining: Joining,
    parts: Vec<Bound>,
) -> Result<Vec<Bound>, Memory>
    ensures { IfOk result (λ r. bounds_of r.items ≡ all_runs_joined (run_joined joining)
        (runs_of (belong_to_one joining) (bounds_of parts.items))) }
{
    let mut done = Vec::new(alloc);
    let mut run = Vec::new(alloc);
    for part in parts {
        if !goes_on(joining, &run, &part) {
            let ended = mem::replace(&mut run, Vec::new(alloc));
            push_joined(alloc, joining, ended, &mut done)?;
        }
        run.push(part)?;
    }
    push_joined(alloc, joining, run, &mut done)?;
    Ok(done)
}

// Whether a part belongs together with the last part of a run.
fn goes_on(joining: Joining, run: &[Bound], part: &Bound) -> bool
    ensures { result ≡ last_belongs (belong_to_one joining) (bounds_of run.now) (bound_of part.now) }
{
    if run.is_empty() {
        return false;
    }
    belong_together(joining, &run[run.len() - 1], part)
}

// Whether two neighbours belong together.
fn belong_together(joining: Joining, part: &Bound, other: &Bound) -> bool
    ensures { result ≡ belong_to_one joining (bound_of part.now) (bound_of other.now) }
{
    match joining {
        Joining::AsLikes => is_like(part, other),
        Joining::AsPowers => have_one_base(part, other),
    }
}

// Appends a run, joined, to the finished parts.
fn push_joined(
    alloc: Global,
    joining: Joining,
    run: Vec<Bound>,
    done: &mut Vec<Bound>,
) -> Result<(), Memory>
    ensures { OnOk result (bounds_of done.new.items ≡ bounds_of done.old.items
        ++ run_joined joining (bounds_of run.items)) }
{
    match joining {
        Joining::AsLikes => push_likes(alloc, run, done),
        Joining::AsPowers => push_powers(alloc, run, done),
    }
}
