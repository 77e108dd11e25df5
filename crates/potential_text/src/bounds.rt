//! The bound that is being read.

ghost use Rattle.std.specs.Prelude.{◌≡◌, map, IfOk, OnOk};
ghost use Rattle.signed_bounds.specs.Views.{signed_of, signeds_of};
ghost use Rattle.lexing_laws.specs.Lasts.{last_of};
ghost use Rattle.potential_text.specs.Bounds as bounds;
ghost use Rattle.potential_text.specs.Views.{parts_read, opened_of};

use crate::action::Opener;
use model::Memory;
use signed_bounds::Signed;
use std::alloc::Global;
use std::mem::replace;

/// A bound whose parts are being read: its kind, its base if it is a power, and the bounds that were read before it.
#[derive(Drop)]
pub struct Opened {
    pub kind: Opener,
    pub base: u64,
    pub before: Vec<Signed>,
}

/// The bounds that were read last, and the bounds around them, the innermost last.
#[derive(Drop)]
pub struct Parts {
    pub parts: Vec<Signed>,
    pub opened: Vec<Opened>,
}

// The first of some bounds, or 0.
fn first_part(parts: Vec<Signed>) -> Signed
    ensures { signed_of result ≡ bounds.first_part (signeds_of parts.items) }
{
    let mut parts = parts;
    if parts.is_empty() {
        return Signed::Const(0);
    }
    parts.remove(0)
}

// The lesser of the first of some bounds and of the others.
fn minimum(alloc: Global, parts: Vec<Signed>) -> Result<Signed, Memory>
    ensures { IfOk result (λ b. signed_of b ≡ bounds.minimum (signeds_of parts.items)) }
{
    let mut parts = parts;
    if parts.is_empty() {
        let zero = Box::new(alloc, Signed::Const(0))?;
        return Ok(Signed::Min(zero, parts));
    }
    let first = Box::new(alloc, parts.remove(0))?;
    Ok(Signed::Min(first, parts))
}

// The bound of a kind with these parts.
fn made_bound(
    alloc: Global,
    kind: Opener,
    base: u64,
    divisor: u128,
    parts: Vec<Signed>,
) -> Result<Signed, Memory>
    ensures { IfOk result (λ b. signed_of b ≡ bounds.made_bound kind base divisor (signeds_of parts.items)) }
{
    match kind {
        Opener::Sum => Ok(Signed::Sum(parts)),
        Opener::Product => Ok(Signed::Prod(parts)),
        Opener::Maximum => Ok(Signed::Max(parts)),
        Opener::Minimum => minimum(alloc, parts),
        Opener::Quotient => Ok(Signed::Quotient(Box::new(alloc, first_part(parts))?, divisor)),
        Opener::Root => Ok(Signed::Root(Box::new(alloc, first_part(parts))?)),
        Opener::Power => Ok(Signed::Power(base, Box::new(alloc, first_part(parts))?)),
    }
}

impl Parts {
    /// Nothing was read.
    pub fn new(alloc: Global) -> Parts
        ensures { parts_read result ≡ bounds.no_parts }
    {
        Parts {
            parts: Vec::new(alloc),
            opened: Vec::new(alloc),
        }
    }

    /// A bound was read.
    ///
    /// # Errors
    ///
    /// `Memory` where an allocation fails.
    pub fn push(&mut self, bound: Signed) -> Result<(), Memory>
        ensures { OnOk result (parts_read self.new ≡ bounds.with_bound (signed_of bound) (parts_read self.old)) }
    {
        self.parts.push(bound)?;
        Ok(())
    }

    /// The parts of a bound begin.
    ///
    /// # Errors
    ///
    /// `Memory` where an allocation fails.
    pub fn open(&mut self, alloc: Global, kind: Opener, base: u64) -> Result<(), Memory>
        ensures { OnOk result (parts_read self.new ≡ bounds.with_opened kind base (parts_read self.old)) }
    {
        let before = replace(&mut self.parts, Vec::new(alloc));
        self.opened.push(Opened { kind, base, before })?;
        Ok(())
    }

    /// All parts of the innermost bound were read, and what it is divided by if it is a quotient.
    ///
    /// # Errors
    ///
    /// `Memory` where an allocation fails.
    pub fn close(&mut self, alloc: Global, divisor: u128) -> Result<(), Memory>
        ensures { OnOk result (parts_read self.new
            ≡ bounds.closed divisor (last_of (parts_read self.old).opened) (parts_read self.old)) }
    {
        if let Some(opened) = self.opened.pop() {
            self.end_parts(alloc, opened, divisor)?;
        }
        Ok(())
    }

    // The bound that was opened ends.
    fn end_parts(&mut self, alloc: Global, opened: Opened, divisor: u128) -> Result<(), Memory>
        ensures { OnOk result (parts_read self.new
            ≡ bounds.parts_ended divisor (opened_of opened) (parts_read self.old)) }
    {
        let parts = replace(&mut self.parts, opened.before);
        let bound = made_bound(alloc, opened.kind, opened.base, divisor, parts)?;
        self.parts.push(bound)?;
        Ok(())
    }

    /// The bound of a line: the first one that was read, or 0. The next one begins.
    pub fn end(&mut self, alloc: Global) -> Signed
        ensures bound { signed_of result ≡ bounds.first_part (parts_read self.old).parts }
        ensures left { parts_read self.new ≡ bounds.without_parts (parts_read self.old) }
    {
        first_part(replace(&mut self.parts, Vec::new(alloc)))
    }
}
