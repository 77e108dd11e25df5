//! The LL(1) table of a grammar: the lead of each nonterminal at each class of pieces, and at the end of the text.

ghost use Rattle.std.specs.Prelude.{◌≡◌, ◌≢◌, ◌<◌, ◌≤◌, ◌^◌, ℕ, length, IfOk, OnOk, IsTrue, IsFalse};
ghost use Rattle.text_grammar.specs.Leads.{Stuck, entry};
ghost use Rattle.text_grammar.specs.Grammars.{rules_of as rules_spelled};
ghost use Rattle.text_grammar.specs.Tabled.{IsTable, IsSound, Remains, HasPut, kept_row, row_in};
ghost use Rattle.text_grammar.specs.Views.{lead_of, leads_of};

use crate::entry::Entry;
use crate::leading::lead_of_nonterminal;
use crate::rules::rules_of;
use crate::symbol::Item;
use std::alloc::{AllocError, Global};

/// The LL(1) table of a grammar. An entry is computed when it is first used, and then stored, so that a short text
/// needs few of them. Where no entry is stored, a row has `Stuck`, or is shorter.
#[derive(Drop)]
pub struct Tables<'a> {
    alloc: Global,
    rules: Vec<&'a [Item]>,
    rows: Vec<Vec<Entry>>,
    rounds: u32,
    pub(crate) end: u32,
}

impl<'a> Tables<'a> {
    /// The table of the rules that items spell, for this many classes of pieces, with entries as they are after this
    /// many rounds. No entry is stored yet.
    ///
    /// # Errors
    ///
    /// `AllocError` if an allocation fails.
    pub fn new(
        alloc: Global,
        items: &'a [Item],
        classes: u32,
        rounds: u32,
    ) -> Result<Tables<'a>, AllocError>
        requires { classes < 2 ^ 31 }
        ensures { IfOk result (λ t. IsTable t (rules_spelled items.now) classes rounds) }
    {
        let rules = rules_of(alloc, items)?;
        let mut rows = Vec::new(alloc);
        for _ in 0..classes + 1 {
            rows.push(Vec::new(alloc))?;
        }
        Ok(Tables {
            alloc,
            rules,
            rows,
            rounds,
            end: classes,
        })
    }

    /// Stores the entry of a nonterminal at a class, if it isn't stored yet and isn't `Stuck`.
    ///
    /// # Errors
    ///
    /// `AllocError` if an allocation fails.
    pub(crate) fn keep(&mut self, class: u32, number: u32) -> Result<(), AllocError>
        requires sound { IsSound self.old }
        requires class { class ≤ self.old.end }
        ensures remains { OnOk result (Remains self.old self.new) }
        ensures kept { OnOk result (entry (kept_row self.new class) number ≡ entry (row_in self.old class) number) }
    {
        if is_kept(&self.rows[class as usize], number) {
            return Ok(());
        }
        match lead_of_nonterminal(self.alloc, &self.rules, class, number, self.rounds)? {
            Entry::Stuck => {}
            made => put(&mut self.rows[class as usize], number, made)?,
        }
        Ok(())
    }

    /// The stored part of the row of a class.
    pub(crate) fn row(&self, class: u32) -> &[Entry]
        requires class { class ≤ self.now.end }
        requires sound { IsSound self.now }
        ensures { leads_of result.now ≡ kept_row self.now class }
    {
        &self.rows[class as usize]
    }
}

// Whether a row has an entry other than `Stuck` for a nonterminal.
fn is_kept(row: &[Entry], number: u32) -> bool
    ensures kept { IsTrue result → entry (leads_of row.now) number ≢ Stuck }
    ensures none { IsFalse result → entry (leads_of row.now) number ≡ Stuck }
{
    match row.get(number as usize) {
        Some(Entry::Passes { .. }) | Some(Entry::Matches { .. }) => true,
        Some(Entry::Stuck) | None => false,
    }
}

// Stores an entry at its place in a row.
fn put(row: &mut Vec<Entry>, number: u32, made: Entry) -> Result<(), AllocError>
    ensures { OnOk result (HasPut (leads_of row.old.items) number (lead_of made) (leads_of row.new.items)) }
{
    let number = number as usize;
    lengthen(row, number + 1)?;
    row[number] = made;
    Ok(())
}

// Lengthens a row to this many places, if it has fewer.
fn lengthen(row: &mut Vec<Entry>, places: usize) -> Result<(), AllocError>
    ensures same { OnOk result ((n : ℕ) → entry (leads_of row.new.items) n ≡ entry (leads_of row.old.items) n) }
    ensures long { OnOk result (places ≤ length row.new.items) }
{
    // One allocation a row in most cases, rather than one at each doubling.
    row.reserve(places.saturating_sub(row.len()))?;
    while row.len() < places {
        row.push(Entry::Stuck)?;
    }
    Ok(())
}
