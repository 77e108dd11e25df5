//! Builds the entry of each size: a bound, or why there is none.

ghost use Rattle.std.specs.Prelude.{◌≡◌, ◌<◌, ◌∷◌, [], length, map, IfOk, OnOk, Some, None};
ghost use Rattle.std.specs.List.{All};
ghost use Rattle.std.specs.Option.{option_map};
ghost use Rattle.outcome.specs.Views.{size_of};
ghost use Rattle.outcome.specs.Reports.{Unsized};
ghost use Rattle.time_bounds.specs.Candidates.{result_variables_in};
ghost use Rattle.time_bounds.specs.Attempts.{why_armless, why_by, why_in, why_of};
ghost use Rattle.time_bounds.specs.SizeSaid.{seen_row, seen_rows, said_stored, said_table, put_some};
ghost use Rattle.time_bounds.specs.SizeSaid.{put_why, put_whys, AreThere, CarriesIfThere, CarryRow, CarryPlaces};
ghost use Rattle.time_bounds.specs.SizeSaid.{KeepPlaces, IsReason};
ghost use Rattle.time_bounds.specs.AnalysisLemmas.{CarriesSizes};
ghost use Rattle.time_bounds.specs.Numbered.{EachNumbered};
ghost use Rattle.size_bounds.specs.Tables.{lemma_stored, number_at};
ghost use Rattle.cert_types.specs.Views.{result_variable_of};

use crate::candidates::{Candidate, SideBounds};
use crate::copies::copied_unbounded;
use crate::sizing::ComponentAttempt;
use bound_derivations::put_place;
use cert_types::ResultVariable;
use model::Memory;
use outcome::{SizeEntry, Stored};
use size_bounds::Table;
use size_nodes::Sizing;
use std::alloc::Global;

/// For the virtual entry and for each rule, and for each place after it, its size, or why there is none, by the last
/// round's result for its component.
pub(crate) fn size_entries(
    alloc: Global,
    table: &Table,
    candidates: &[Candidate],
    attempts: &[ComponentAttempt],
) -> Result<Vec<Vec<SizeEntry>>, Memory>
    requires one_each { length attempts.now ≡ length candidates.now }
    requires there { All AreThere (put_whys (said_table table.now) candidates.now attempts.now) }
    ensures sizes { IfOk result (λ rows. map (λ row. map (λ e. Some (size_of e)) row.items) rows.items
        ≡ put_whys (said_table table.now) candidates.now attempts.now) }
    ensures carried { IfOk result (λ rows. EachNumbered (CarriesSizes (number_at table.now)) 0
        (map (λ row. row.items) rows.items)) }
{
    let mut entries = known_sizes(alloc, table)?;
    for (position, candidate) in candidates.iter().enumerate() {
        write_reason(alloc, &mut entries, candidate, &attempts[position])?;
    }
    entry_rows(alloc, entries)
}

// The sizes that the table has, row by row.
fn known_sizes(alloc: Global, table: &Table) -> Result<Vec<Vec<Option<SizeEntry>>>, Memory>
    ensures sizes { IfOk result (λ rows. seen_rows (map (λ row. row.items) rows.items) ≡ said_table table.now) }
    ensures carried { IfOk result (λ rows. CarryPlaces table.now (map (λ row. row.items) rows.items)) }
{
    let mut rows = Vec::new(alloc);
    for row in &table.sizes {
        rows.push(known_row(alloc, row)?)?;
    }
    Ok(rows)
}

// The sizes of a row.
fn known_row(alloc: Global, row: &[Option<Stored>]) -> Result<Vec<Option<SizeEntry>>, Memory>
    ensures sizes { IfOk result (λ entries. seen_row entries.items ≡ map said_stored row.now) }
    ensures carried { IfOk result (λ entries. CarryRow row.now entries.items) }
{
    let mut entries = Vec::new(alloc);
    for stored in row {
        entries.push(known_size(alloc, stored)?)?;
    }
    Ok(entries)
}

// A size, where there is one.
fn known_size(alloc: Global, stored: &Option<Stored>) -> Result<Option<SizeEntry>, Memory>
    ensures size { IfOk result (λ entry. option_map size_of entry ≡ said_stored stored.now) }
    ensures carries { IfOk result (λ entry. CarriesIfThere (lemma_stored stored.now) entry) }
{
    match stored {
        Some(s) => {
            let bound = s.bound.copied(alloc)?;
            Ok(Some(SizeEntry::Known(Stored {
                bound,
                lemma: s.lemma,
            })))
        }
        None => Ok(None),
    }
}

// Writes why the places of a component have no size, where they have none.
fn write_reason(
    alloc: Global,
    entries: &mut Vec<Vec<Option<SizeEntry>>>,
    candidate: &Candidate,
    attempt: &ComponentAttempt,
) -> Result<(), Memory>
    ensures sizes { OnOk result (seen_rows (map (λ row. row.items) entries.new.items)
        ≡ put_why (seen_rows (map (λ row. row.items) entries.old.items)) (result_variables_in candidate.now)
        (why_of candidate.now attempt.now)) }
    ensures kept { OnOk result (KeepPlaces (map (λ row. row.items) entries.old.items)
        (map (λ row. row.items) entries.new.items)) }
{
    for result_variable in &candidate.result_variables {
        let entry = reason(alloc, candidate, attempt)?;
        write_some(entries, *result_variable, entry);
    }
    Ok(())
}

// Writes an entry, where there is one.
fn write_some(
    entries: &mut Vec<Vec<Option<SizeEntry>>>,
    result_variable: ResultVariable,
    entry: Option<SizeEntry>,
)
    requires { IsReason entry }
    ensures sizes { seen_rows (map (λ row. row.items) entries.new.items)
        ≡ put_some (seen_rows (map (λ row. row.items) entries.old.items)) (result_variable_of result_variable) (option_map size_of entry) }
    ensures kept { KeepPlaces (map (λ row. row.items) entries.old.items) (map (λ row. row.items) entries.new.items) }
{
    match entry {
        Some(e) => put_place(entries, result_variable.rule, result_variable.place, e),
        None => {}
    }
}

// Why the places of a component have no size, by the last round's result for it.
fn reason(
    alloc: Global,
    candidate: &Candidate,
    attempt: &ComponentAttempt,
) -> Result<Option<SizeEntry>, Memory>
    ensures { IfOk result (λ entry. option_map size_of entry
        ≡ option_map Unsized (why_of candidate.now attempt.now)) }
{
    match attempt {
        ComponentAttempt::Known => Ok(None),
        ComponentAttempt::Found => Ok(None),
        ComponentAttempt::HasNoSideBound => lacking_side_bounds(alloc, &candidate.side_bounds),
        ComponentAttempt::Failed(answer) => Ok(failed(answer)),
    }
}

// Why a member has no side bounds.
fn lacking_side_bounds(alloc: Global, side_bounds: &SideBounds) -> Result<Option<SizeEntry>, Memory>
    ensures { IfOk result (λ entry. option_map size_of entry ≡ option_map Unsized (why_armless side_bounds.now)) }
{
    match side_bounds {
        SideBounds::Lacking(entry) => copied_reason(alloc, entry),
        SideBounds::Alone(_) => Ok(None),
        SideBounds::Loop(_) => Ok(None),
    }
}

// The same reason, where the entry is one.
fn copied_reason(alloc: Global, entry: &SizeEntry) -> Result<Option<SizeEntry>, Memory>
    ensures { IfOk result (λ e. option_map size_of e ≡ option_map Unsized (why_in (size_of entry.now))) }
{
    match entry {
        SizeEntry::Known(_) => Ok(None),
        SizeEntry::UnboundedSide(unbounded) => {
            let copy = copied_unbounded(alloc, unbounded)?;
            Ok(Some(SizeEntry::UnboundedSide(copy)))
        }
        SizeEntry::OutOfLimits(limit_hit) => Ok(Some(SizeEntry::OutOfLimits(*limit_hit))),
        SizeEntry::Missing(result_variable) => Ok(Some(SizeEntry::Missing(*result_variable))),
        SizeEntry::Nonlinear(result_variable) => Ok(Some(SizeEntry::Nonlinear(*result_variable))),
        SizeEntry::Untimed { rule } => Ok(Some(SizeEntry::Untimed { rule: *rule })),
        SizeEntry::Large { nodes } => Ok(Some(SizeEntry::Large { nodes: *nodes })),
    }
}

// Why an answer gives no size.
fn failed(answer: &Sizing) -> Option<SizeEntry>
    ensures { option_map size_of result ≡ option_map Unsized (why_by answer.now) }
{
    match answer {
        Sizing::Found { .. } => None,
        Sizing::Missing(result_variable) => Some(SizeEntry::Missing(*result_variable)),
        Sizing::Nonlinear(result_variable) => Some(SizeEntry::Nonlinear(*result_variable)),
        Sizing::Untimed { rule } => Some(SizeEntry::Untimed { rule: *rule }),
        Sizing::Large { nodes } => Some(SizeEntry::Large { nodes: *nodes }),
    }
}

// The entries of the places after rules; each place has one.
fn entry_rows(
    alloc: Global,
    entries: Vec<Vec<Option<SizeEntry>>>,
) -> Result<Vec<Vec<SizeEntry>>, Memory>
    requires { All (λ row. AreThere (seen_row row.items)) entries.items }
    ensures { IfOk result (λ rows. map (λ row. map (λ e. Some e) row.items) rows.items
        ≡ map (λ row. row.items) entries.items) }
{
    let mut rows = Vec::new(alloc);
    for row in entries {
        rows.push(entry_row(alloc, row)?)?;
    }
    Ok(rows)
}

// The entries of the places after a rule; each place has one.
fn entry_row(alloc: Global, row: Vec<Option<SizeEntry>>) -> Result<Vec<SizeEntry>, Memory>
    requires { AreThere (seen_row row.items) }
    ensures { IfOk result (λ said. map (λ e. Some e) said.items ≡ row.items) }
{
    let mut said = Vec::new(alloc);
    for entry in row {
        said.push(there(entry))?;
    }
    Ok(said)
}

// The entry, which is present.
fn there(entry: Option<SizeEntry>) -> SizeEntry
    requires { AreThere (entry ∷ []) }
    ensures { entry ≡ Some result }
{
    match entry {
        Some(e) => e,
        None => unreachable!(),
    }
}
