//! Pieces of a bound that take few bytes each.

ghost use Rattle.std.specs.Prelude.{◌≡◌, length};
ghost use Rattle.cert_lexer.specs.Packing.{longs_taken, shorts_taken, next_long, next_short, tail_of};

use crate::inner::Inner;
use crate::marks::{Mark, Short, Source, mark_of, mark_source, short_of, short_piece};
use bound_text::Piece as BoundPiece;
use std::alloc::{AllocError, Global};

/// Pieces of a bound, packed: one byte for each piece, eight more for a name or a number, and more only for a long one.
#[derive(Drop)]
pub struct Packed {
    marks: Vec<Mark>,
    shorts: Vec<Short>,
    longs: Vec<Inner>,
    ghost short: { shorts_taken marks.items ≡ length shorts.items },
    ghost long: { longs_taken marks.items ≡ length longs.items },
}

/// The packed pieces that are left of a list.
#[derive(Clone, Copy)]
pub struct PackedRest<'a> {
    marks: &'a [Mark],
    shorts: &'a [Short],
    longs: &'a [Inner],
}

impl Packed {
    ghost use Rattle.std.specs.Prelude.{◌∷◌, ◌++◌, [], OnOk};
    ghost use Rattle.cert_lexer.specs.Packed.{inners_in, inners_of};
    ghost use Rattle.cert_lexer.specs.Packing.{inner_with, short_inner, mark_source as source_at};
    ghost use Rattle.cert_lexer.specs.declared.marks.Source.TheVariants.{Known};

    /// No pieces.
    pub fn new(alloc: Global) -> Packed
        ensures { inners_of result ≡ [] }
    {
        Packed {
            marks: Vec::new(alloc),
            shorts: Vec::new(alloc),
            longs: Vec::new(alloc),
        }
    }

    /// Appends a piece with this many bytes.
    ///
    /// # Errors
    ///
    /// `AllocError` where an allocation fails.
    pub fn push(&mut self, piece: BoundPiece, len: u64) -> Result<(), AllocError>
        ensures { OnOk result (inners_of self.new ≡ inners_of self.old ++ inner_with piece len ∷ []) }
    {
        if let Some(mark) = mark_of(piece, len) {
            return self.push_known(mark, Inner { piece, len });
        }
        match short_of(piece, len) {
            Some(short) => self.push_short(short),
            None => self.push_long(Inner { piece, len }),
        }
    }

    // Appends a piece that its mark determines.
    fn push_known(&mut self, mark: Mark, inner: Inner) -> Result<(), AllocError>
        requires known { source_at mark ≡ Known inner }
        ensures { OnOk result (inners_of self.new ≡ inners_of self.old ++ inner ∷ []) }
    {
        let _inner = inner;
        self.marks.push(mark)?;
        Ok(())
    }

    // Appends a short piece.
    fn push_short(&mut self, short: Short) -> Result<(), AllocError>
        ensures { OnOk result (inners_of self.new ≡ inners_of self.old ++ short_inner short ∷ []) }
    {
        self.shorts.push(short)?;
        match self.marks.push(Mark::Short) {
            Ok(()) => Ok(()),
            Err(_) => {
                let _short = self.shorts.pop();
                Err(AllocError)
            }
        }
    }

    // Appends a long piece.
    fn push_long(&mut self, inner: Inner) -> Result<(), AllocError>
        ensures { OnOk result (inners_of self.new ≡ inners_of self.old ++ inner ∷ []) }
    {
        self.longs.push(inner)?;
        match self.marks.push(Mark::Long) {
            Ok(()) => Ok(()),
            Err(_) => {
                let _inner = self.longs.pop();
                Err(AllocError)
            }
        }
    }

    /// All pieces, as those that are left.
    pub fn rest(&self) -> PackedRest<'_>
        ensures { inners_in result ≡ inners_of self.now }
    {
        PackedRest {
            marks: &self.marks,
            shorts: &self.shorts,
            longs: &self.longs,
        }
    }
}

impl<'a> PackedRest<'a> {
    ghost use Rattle.std.specs.Prelude.{◌∷◌, MatchOption};
    ghost use Rattle.cert_lexer.specs.Packed.{inners_in};

    /// The number of pieces left.
    pub fn len(&self) -> usize
        ensures { result ≡ length (inners_in self.now) }
    {
        self.marks.len()
    }

    /// The next piece and those after it, if there is one.
    pub fn split_first(&self) -> Option<(Inner, PackedRest<'a>)>
        ensures { MatchOption result (length (inners_in self.now) ≡ 0)
            (λ split. inners_in self.now ≡ split.0 ∷ inners_in split.1) }
    {
        let (mark, marks) = self.marks.split_first()?;
        let PackedRest { shorts, longs, .. } = *self;
        match mark_source(*mark) {
            Source::Known(inner) => Some((
                inner,
                PackedRest {
                    marks,
                    shorts,
                    longs,
                },
            )),
            Source::Shorts => {
                let (inner, shorts) = split_short(shorts);
                Some((
                    inner,
                    PackedRest {
                        marks,
                        shorts,
                        longs,
                    },
                ))
            }
            Source::Longs => {
                let (inner, longs) = split_long(longs);
                Some((
                    inner,
                    PackedRest {
                        marks,
                        shorts,
                        longs,
                    },
                ))
            }
        }
    }
}

// A placeholder for a piece that is absent.
const MISSING: Inner = Inner {
    piece: BoundPiece::Wrong,
    len: 0,
};

// The next short piece and those after it.
fn split_short(shorts: &[Short]) -> (Inner, &[Short])
    ensures first { result.0 ≡ next_short shorts.now }
    ensures rest { result.1.now ≡ tail_of shorts.now }
{
    match shorts {
        [short, rest @ ..] => (short_piece(*short), rest),
        [] => (MISSING, shorts),
    }
}

// The next long piece and those after it.
fn split_long(longs: &[Inner]) -> (Inner, &[Inner])
    ensures first { result.0 ≡ next_long longs.now }
    ensures rest { result.1.now ≡ tail_of longs.now }
{
    match longs {
        [inner, rest @ ..] => (*inner, rest),
        [] => (MISSING, longs),
    }
}
