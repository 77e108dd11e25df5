//! The pieces that expressions and guards are written in.

ghost use Rattle.std.specs.Prelude.{◌≡◌};

/// A relation as it is written: equality has two signs.
#[derive(Clone, Copy, Debug, PartialEq, Eq)]
pub enum Sign {
    /// `>=`
    AtLeast,
    /// `>`
    MoreThan,
    /// `<=`
    AtMost,
    /// `<`
    LessThan,
    /// `=`
    Equal,
    /// `==`
    DoubleEqual,
}

/// A sign that joins two atoms.
#[derive(Clone, Copy, Debug, PartialEq, Eq)]
pub enum Joint {
    /// `&&`
    Ampersands,
    /// `/\`
    Wedge,
}

/// A piece of an expression or of a guard.
#[derive(Clone, Copy)]
pub enum Piece<'a> {
    /// A name.
    Word(&'a [u8]),
    /// A row of digits.
    Digits(&'a [u8]),
    /// `(`
    Open,
    /// `)`
    Close,
    /// `+`
    Plus,
    /// `-`
    Minus,
    /// `*`
    Times,
    /// `^`
    Caret,
    /// A relation.
    Related(Sign),
    /// A sign that joins two atoms.
    Joining(Joint),
}

impl<'a> Piece<'a> {
    ghost use Rattle.expr_text.specs.StateNames.{begins_expression as begins, operates as is_operating};
    ghost use Rattle.expr_reader.specs.Operators.{is_operator as is_operating_alone};
    ghost use Rattle.expr_reader.specs.Views.{piece_of};

    /// Whether an expression can begin with the piece.
    pub fn begins_expression(self) -> bool
        ensures { result ≡ begins (piece_of self.entry) }
    {
        matches!(
            self,
            Piece::Word(_) | Piece::Digits(_) | Piece::Open | Piece::Minus
        )
    }

    /// Whether the piece is an operator.
    pub fn is_operator(self) -> bool
        ensures { result ≡ is_operating_alone (piece_of self.entry) }
    {
        matches!(
            self,
            Piece::Plus | Piece::Minus | Piece::Times | Piece::Caret
        )
    }

    /// Whether the piece is an operator or a relation, so that the word before it is a name.
    pub fn operates(self) -> bool
        ensures { result ≡ is_operating (piece_of self.entry) }
    {
        matches!(
            self,
            Piece::Plus | Piece::Minus | Piece::Times | Piece::Caret | Piece::Related(_)
        )
    }
}
