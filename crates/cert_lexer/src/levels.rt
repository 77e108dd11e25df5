//! The levels of the parts of a bound, piece by piece, up to the first part that is too deep.

ghost use Rattle.std.specs.Prelude.{◌≡◌, ◌≤◌, ◌++◌, ◌∷◌, ℕ, suc, List, [], Option, Some, None, OnOk, IfOk, map};
ghost use Rattle.std.specs.Prelude.{length, if◌then◌else◌, ◌&&◌, ◌||◌};
ghost use Rattle.std.specs.Option.{option_map};
ghost use Rattle.bound_text.specs.Inside.{Marks};
ghost use Rattle.bound_text.specs.Printing.{piece_of};
ghost use Rattle.cert_lexer.specs.Levels as plain;
ghost use Rattle.cert_lexer.specs.Levels.{capped, raised, raised_from, first_open_part};
ghost use Rattle.cert_lexer.specs.Outlines.{innermost_frame};
ghost use Rattle.cert_lexer.specs.Representation.{Holds, ShowsLevels, ShowsTaken, open_parts_in, capped_open_part, frames_in};

use crate::bound_reading::BOUND_LEVELS;
use crate::outline::{Change, Frame, Innermost, Opening, Outline, Shape, Stage};
use bound_text::Piece as BoundPiece;
use std::alloc::{AllocError, Global};

/// A bound that isn't finished: the number of levels above it, and the piece at which its current term begins, each up
/// to 2^64-1.
#[derive(Clone, Copy)]
pub(crate) struct OpenPart {
    pub above: u64,
    pub start: u64,
}

/// For each piece the level of the part that begins with it, if one does, up to the first part that is too deep; and
/// whether there is such a part.
#[derive(Drop)]
pub(crate) struct PartLevels {
    pub levels: Vec<Option<u8>>,
    pub deep: bool,
}

/// The levels of the pieces read so far; the number of these pieces, up to 2^64-1; and the unfinished bounds that began
/// before the first part that is too deep, or with it, the outermost first. The unfinished bounds inside them change no
/// stored level.
#[derive(Drop)]
pub(crate) struct Levels {
    pub marked: PartLevels,
    pub count: u64,
    pub begun: Vec<OpenPart>,
}

// 1 if a test passes, else 0: the number of nodes that count.
fn node_if(counts: bool) -> u64
    ensures value { result ≡ plain.node_if counts }
    ensures small { result ≤ 1 }
{
    if counts { 1 } else { 0 }
}

// Whether the innermost bracket is that of a sum as a factor.
fn is_factor_frame(round: Option<Frame>) -> bool
    ensures { result ≡ plain.is_factor_frame round }
{
    match round {
        Some(frame) => matches!(frame.opening, Opening::Factor),
        None => false,
    }
}

// Whether factors count as a product.
fn is_product(before: Option<Shape>, last: Option<Shape>) -> bool
    ensures { result ≡ plain.is_product before last }
{
    match (before, last) {
        (Some(_), _) | (None, Some(Shape::Sum)) => true,
        _ => false,
    }
}

// The level of a factor of the current term, with the product's node or without it.
fn factor_level(above: u64, round: Option<Frame>, innermost: Innermost, product: bool) -> u64
    ensures { (high : ℕ) → above ≡ capped high → result ≡ capped (plain.factor_level high round innermost product) }
{
    let sum = node_if(!is_factor_frame(round) && innermost.terms);
    let product = node_if(product);
    above.saturating_add(sum + product + 1)
}

// The level of the item that comes next.
fn item_level(above: u64, round: Option<Frame>, innermost: Innermost) -> u64
    ensures { (high : ℕ) → above ≡ capped high → result ≡ capped (plain.item_level high round innermost) }
{
    factor_level(above, round, innermost, innermost.last.is_some())
}

// The level of the part that begins with a piece, if one does.
fn mark_of(above: u64, round: Option<Frame>, innermost: Innermost, piece: BoundPiece) -> Option<u64>
    ensures { (high : ℕ) → above ≡ capped high
        → result ≡ option_map capped (plain.mark_of high round innermost (piece_of piece)) }
{
    match (innermost.stage, piece) {
        (Stage::Begins, BoundPiece::Open) => Some(factor_level(above, round, innermost, true)),
        (Stage::Begins, _) => Some(item_level(above, round, innermost)),
        (Stage::Power, BoundPiece::Open) => None,
        (Stage::Power, _) => Some(item_level(above, round, innermost).saturating_add(1)),
        _ => None,
    }
}

// Whether, with this piece, a node begins to count that is above the current term so far.
fn raises(round: Option<Frame>, innermost: Innermost, piece: BoundPiece) -> bool
    ensures { result ≡ plain.raises round innermost (piece_of piece) }
{
    match (innermost.stage, piece) {
        (Stage::Item, BoundPiece::Times) => !is_product(innermost.before, innermost.last),
        (Stage::Item, BoundPiece::Blank) => !is_factor_frame(round) && !innermost.terms,
        (Stage::Run(_), _) => innermost.last.is_none(),
        _ => false,
    }
}

// The number of levels above a bound in a bracket that opens.
fn above_in(opening: Opening, above: u64, round: Option<Frame>, innermost: Innermost) -> u64
    ensures { (high : ℕ) → above ≡ capped high → result ≡ capped (plain.above_in opening high round innermost) }
{
    match opening {
        Opening::Factor => factor_level(above, round, innermost, true),
        Opening::Maximum(_) | Opening::Exponent => item_level(above, round, innermost),
    }
}

// A mark raised by one level.
fn deeper(mark: Option<u8>) -> Option<u64>
    ensures { result ≡ option_map (λ level. capped (suc level)) mark }
{
    match mark {
        Some(level) => Some(u64::from(level) + 1),
        None => None,
    }
}

// Whether a bracket opens.
fn opens(change: Change) -> bool
    ensures { result ≡ plain.opens change }
{
    matches!(change, Change::Open(_))
}

// Whether both tests pass.
fn both(first: bool, second: bool) -> bool
    ensures { result ≡ (first && second) }
{
    first && second
}

// Whether at least one of the tests passes.
fn either(first: bool, second: bool) -> bool
    ensures { result ≡ (first || second) }
{
    first || second
}

impl PartLevels {
    /// Appends a mark.
    ///
    /// # Errors
    ///
    /// `AllocError` where an allocation fails.
    fn push(&mut self, mark: Option<u64>) -> Result<(), AllocError>
        ensures { (marks : Marks) (m : Option ℕ) → mark ≡ option_map capped m → Holds self.old marks
            → OnOk result (Holds self.new (marks ++ m ∷ [])) }
    {
        if self.deep {
            return Ok(());
        }
        match mark {
            Some(level) if level > BOUND_LEVELS => self.deep = true,
            Some(level) => self.levels.push(Some(level as u8))?,
            None => self.levels.push(None)?,
        }
        Ok(())
    }

    // Appends marks, each raised by one level.
    fn push_deeper(&mut self, marks: &[Option<u8>]) -> Result<(), AllocError>
        ensures { (before : Marks) → Holds self.old before
            → OnOk result (Holds self.new (before ++ raised marks.now)) }
    {
        let mut left = marks;
        while let Some((mark, rest)) = left.split_first() {
            self.push(deeper(*mark))?;
            left = rest;
        }
        Ok(())
    }

    // Raises all marks from a piece on by one level.
    fn raise(&mut self, start: u64) -> Result<(), AllocError>
        ensures { (marks : Marks) (at : ℕ) → start ≡ capped at → Holds self.old marks
            → OnOk result (Holds self.new (raised_from at marks)) }
    {
        let deep = self.deep;
        let kept = (self.levels.len() as u64).min(start);
        let tail = self.levels.split_off(kept as usize)?;
        self.deep = false;
        self.push_deeper(&tail)?;
        self.deep = either(self.deep, deep);
        Ok(())
    }

    // Raises all marks from a piece on by one level, if a node begins to count.
    fn raise_if(&mut self, raises: bool, start: u64) -> Result<(), AllocError>
        ensures { (marks : Marks) (at : ℕ) → start ≡ capped at → Holds self.old marks
            → OnOk result (Holds self.new (if raises then raised_from at marks else marks)) }
    {
        if raises { self.raise(start) } else { Ok(()) }
    }
}

impl Levels {
    /// The levels in which nothing has been read.
    ///
    /// # Errors
    ///
    /// `AllocError` where an allocation fails.
    pub(crate) fn new(alloc: Global) -> Result<Levels, AllocError>
        ensures { IfOk result (λ levels. ShowsLevels levels [] (record { above = 0; start = 0 } ∷ [])) }
    {
        let mut begun = Vec::new(alloc);
        begun.push(OpenPart { above: 0, start: 0 })?;
        Ok(Levels {
            marked: PartLevels {
                levels: Vec::new(alloc),
                deep: false,
            },
            count: 0,
            begun,
        })
    }

    /// Takes a piece that changes the open brackets in this way.
    ///
    /// # Errors
    ///
    /// `AllocError` where an allocation fails.
    pub(crate) fn take(
        &mut self,
        outline: &Outline,
        piece: BoundPiece,
        change: Change,
    ) -> Result<(), AllocError>
        ensures { (marks : Marks) (bs : List OpenPart) → length bs ≡ suc (length outline.now.frames.items)
            → ShowsLevels self.old marks bs
            → OnOk result (ShowsTaken self.new (innermost_frame (frames_in outline.now)) outline.now.innermost
            (piece_of piece) change marks bs) }
    {
        if self.begun.len() > outline.frames.len() {
            self.take_inside(outline.round(), outline.innermost, piece, change)
        } else {
            self.count = self.count.saturating_add(1);
            Ok(())
        }
    }

    // Takes a piece, where all unfinished bounds are stored.
    fn take_inside(
        &mut self,
        round: Option<Frame>,
        innermost: Innermost,
        piece: BoundPiece,
        change: Change,
    ) -> Result<(), AllocError>
        ensures { (marks : Marks) (bs : List OpenPart) → Holds self.old.marked marks
            → self.old.count ≡ capped (length marks) → open_parts_in self.old ≡ map capped_open_part bs
            → OnOk result (ShowsTaken self.new round innermost (piece_of piece) change marks bs) }
    {
        let begun = self.innermost();
        self.marked
            .raise_if(raises(round, innermost, piece), begun.start)?;
        self.marked
            .push(mark_of(begun.above, round, innermost, piece))?;
        self.count = self.count.saturating_add(1);
        if both(self.marked.deep, opens(change)) {
            return Ok(());
        }
        self.change(change, round, innermost)
    }

    // The innermost unfinished bound.
    #[tactic(auto, using(crate::proofs::ListLaws::open_part_last))]
    fn innermost(&self) -> OpenPart
        ensures { result ≡ first_open_part (open_parts_in self.now) }
    {
        match self.begun.last() {
            Some(begun) => *begun,
            None => OpenPart { above: 0, start: 0 },
        }
    }

    // Changes the unfinished bounds as a piece does.
    fn change(
        &mut self,
        change: Change,
        round: Option<Frame>,
        innermost: Innermost,
    ) -> Result<(), AllocError>
        ensures begun { (next : ℕ) (bs : List OpenPart) → self.old.count ≡ capped next
            → open_parts_in self.old ≡ map capped_open_part bs
            → OnOk result (open_parts_in self.new ≡ map capped_open_part (plain.open_parts_after change next round innermost bs)) }
        ensures marked { self.new.marked ≡ self.old.marked }
        ensures count { self.new.count ≡ self.old.count }
    {
        match change {
            Change::Keep => Ok(()),
            Change::Term | Change::Argue => self.begin_term(),
            Change::Open(frame) => self.open(frame.opening, round, innermost),
            Change::Close => {
                let _begun = self.begun.pop();
                Ok(())
            }
        }
    }

    // Notes that a term begins with the next piece.
    fn begin_term(&mut self) -> Result<(), AllocError>
        ensures begun { (next : ℕ) (bs : List OpenPart) → self.old.count ≡ capped next
            → open_parts_in self.old ≡ map capped_open_part bs
            → OnOk result (open_parts_in self.new ≡ map capped_open_part (plain.term_begins next bs)) }
        ensures marked { self.new.marked ≡ self.old.marked }
        ensures count { self.new.count ≡ self.old.count }
    {
        if let Some(begun) = self.begun.pop() {
            self.begun.push(OpenPart {
                above: begun.above,
                start: self.count,
            })?;
        }
        Ok(())
    }

    // Adds the unfinished bound in a bracket that opens.
    fn open(
        &mut self,
        opening: Opening,
        round: Option<Frame>,
        innermost: Innermost,
    ) -> Result<(), AllocError>
        ensures begun { (next : ℕ) (bs : List OpenPart) → self.old.count ≡ capped next
            → open_parts_in self.old ≡ map capped_open_part bs
            → OnOk result (open_parts_in self.new ≡ map capped_open_part (plain.open_parts_inside opening next round innermost bs)) }
        ensures marked { self.new.marked ≡ self.old.marked }
        ensures count { self.new.count ≡ self.old.count }
    {
        let begun = self.innermost();
        self.begun.push(OpenPart {
            above: above_in(opening, begun.above, round, innermost),
            start: self.count,
        })?;
        Ok(())
    }
}
