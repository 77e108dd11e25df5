//! Writes values into tables by key, where there is none.

ghost use Rattle.std.specs.Prelude.{◌≡◌, ◌∷◌, [], map, OnOk};
ghost use Rattle.bound_expr.specs.Views.{bound_of};
ghost use Rattle.cert_types.specs.Views.{result_variable_of};
ghost use Rattle.bound_derivations.specs.ByKey.{rows_of, put_entry, put_time, put_place, IsWritten};

use bound_expr::Bound;
use cert_types::ResultVariable;
use model::Memory;
use outcome::Stored;
use size_bounds::Table;
use std::alloc::Global;

// Writes a value at a key, if there is none. A key without a position in the table is ignored.
fn put(table: &mut Table, key: ResultVariable, stored: Stored)
    ensures times { table.new.times.items ≡ put_time table.old.times.items key.rule key.place stored }
    ensures sizes { rows_of table.new ≡ put_place (rows_of table.old) key.rule key.place stored }
{
    if key.place == 0 {
        put_entry(&mut table.times, key.rule as usize, stored);
        return;
    }
    put_place(&mut table.sizes, key.rule, key.place, stored)
}

/// Writes a value at a place after a rule, where there is none; places count from 1.
pub fn put_place<T: Drop>(rows: &mut Vec<Vec<Option<T>>>, rule: u32, place: u32, value: T)
    ensures { map (λ row. row.items) rows.new.items
        ≡ put_place (map (λ row. row.items) rows.old.items) rule place value }
{
    if place == 0 {
        return;
    }
    if rule as usize >= rows.len() {
        return;
    }
    put_entry(&mut rows[rule as usize], place as usize - 1, value)
}

// Writes a value at a position, where there is none.
fn put_entry<T: Drop>(row: &mut Vec<Option<T>>, position: usize, value: T)
    ensures { row.new.items ≡ put_entry row.old.items position value }
{
    if position >= row.len() {
        return;
    }
    if row[position].is_some() {
        return;
    }
    row[position] = Some(value);
}

/// Writes a copy of a bound, with the number of its lemma, at each of these keys without one.
pub(crate) fn put_each(
    alloc: Global,
    table: &mut Table,
    keys: &[ResultVariable],
    bound: &Bound,
    lemma: u32,
) -> Result<(), Memory>
    ensures { OnOk result (IsWritten table.old (map result_variable_of keys.now) (bound_of bound.now) lemma table.new) }
{
    for key in keys {
        put_copy(alloc, table, *key, bound, lemma)?;
    }
    Ok(())
}

// Writes a copy of a bound at a key, where there is none.
fn put_copy(
    alloc: Global,
    table: &mut Table,
    key: ResultVariable,
    bound: &Bound,
    lemma: u32,
) -> Result<(), Memory>
    ensures { OnOk result (IsWritten table.old (result_variable_of key ∷ []) (bound_of bound.now) lemma table.new) }
{
    let copy = bound.copied(alloc)?;
    put(table, key, Stored { bound: copy, lemma });
    Ok(())
}
