//! The outline and the levels of the pieces of a bound read so far, kept without the tree.

ghost use Rattle.std.specs.Prelude.{◌≡◌, IfOk};
ghost use Rattle.bound_text.specs.ParserStates.{ParserState};
ghost use Rattle.bound_text.specs.Steps.{beginning};
ghost use Rattle.bound_text.specs.Printing.{piece_of};
ghost use Rattle.cert_lexer.specs.Bounds.{deep_part as deep_part_of, pieces_in, stops_in};
ghost use Rattle.cert_lexer.specs.Packed.{inners_in};
ghost use Rattle.cert_lexer.specs.Representation.{Representation, Accepted};

use crate::levels::Levels;
use crate::outline::Outline;
use crate::packed::PackedRest;
use bound_text::Piece as BoundPiece;
use std::alloc::{AllocError, Global};

/// The parser state that is kept without the tree: the outline decides whether a piece can follow, and the levels where
/// the first part is that is too deep.
#[derive(Drop)]
pub(crate) struct Follower {
    pub outline: Outline,
    pub levels: Levels,
}

impl Follower {
    /// The state in which nothing has been read.
    ///
    /// # Errors
    ///
    /// `AllocError` where an allocation fails.
    pub(crate) fn new(alloc: Global) -> Result<Follower, AllocError>
        ensures { IfOk result (Representation beginning) }
    {
        Ok(Follower {
            outline: Outline::new(alloc),
            levels: Levels::new(alloc)?,
        })
    }

    /// Takes a piece if it can follow, and returns whether it can; if not, nothing changes.
    ///
    /// # Errors
    ///
    /// `AllocError` where an allocation fails; the follower is then unusable.
    pub(crate) fn take(&mut self, piece: BoundPiece) -> Result<bool, AllocError>
        ensures { (f : ParserState) → Representation f self.old → IfOk result (Accepted f (piece_of piece) self.new) }
    {
        let round = self.outline.round();
        let innermost = self.outline.innermost;
        match innermost.lead(round, piece) {
            Some(lead) => {
                self.levels.take(&self.outline, piece, lead.change)?;
                self.outline.follow(lead)?;
                Ok(true)
            }
            None => Ok(false),
        }
    }

    /// The number of the piece with which the first part that is too deep begins, if there is one.
    pub(crate) fn deep_part(&self) -> Option<usize>
        ensures { (f : ParserState) → Representation f self.now → result ≡ deep_part_of f }
    {
        if self.levels.marked.deep {
            Some(self.levels.marked.levels.len())
        } else {
            None
        }
    }
}

/// The number of the piece with which the first part begins that is too deep, if there is one, in the tree of the pieces
/// up to the first that can't follow.
///
/// # Errors
///
/// `AllocError` where an allocation fails.
pub(crate) fn deep_part(alloc: Global, pieces: PackedRest<'_>) -> Result<Option<usize>, AllocError>
    ensures { IfOk result (λ deep. deep ≡ deep_part_of (stops_in (pieces_in (inners_in pieces.entry)))) }
{
    let mut follower = Follower::new(alloc)?;
    let mut rest = pieces;
    while let Some((inner, behind)) = rest.split_first() {
        let accepted = follower.take(inner.piece)?;
        if accepted {
            rest = behind;
        } else {
            return Ok(follower.deep_part());
        }
    }
    Ok(follower.deep_part())
}
