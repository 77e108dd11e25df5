//! The steps of an outline.

ghost use Rattle.std.specs.Prelude.{◌≡◌, Some, None};
ghost use Rattle.bound_text.specs.Printing.{piece_of};
ghost use Rattle.bound_text.specs.Steps.{when};
ghost use Rattle.cert_lexer.specs.Outlines as plain;
ghost use Rattle.cert_lexer.specs.declared.outline.Shape.TheVariants as shapes;
ghost use Rattle.cert_lexer.specs.declared.outline.Stage.TheVariants as stages;

use crate::outline::{BEGUN, Change, Frame, Innermost, Opening, OutlineStep, Shape, Stage};
use bound_text::Piece as BoundPiece;

// Whether the shape is that of this variable.
fn is_input(variable: u32, shape: Option<Shape>) -> bool
    ensures { result ≡ plain.is_last_input variable shape }
{
    match shape {
        Some(Shape::Input(other)) => other == variable,
        _ => false,
    }
}

// The shape of some factor, if there is one.
fn any_factor(some: bool) -> Option<Shape>
    ensures { result ≡ plain.any_factor some }
{
    if some { Some(Shape::Other) } else { None }
}

// The factors before the last one.
fn before_last(last: Option<Shape>, before: Option<Shape>) -> Option<Shape>
    ensures { result ≡ plain.before_last last before }
{
    match last {
        None => None,
        Some(Shape::Constant(_) | Shape::Input(_)) => before,
        Some(Shape::Sum | Shape::Maximum | Shape::Other) => any_factor(before.is_some()),
    }
}

// Whether a term can end after the factors.
fn ends_term(before: Option<Shape>, last: Option<Shape>) -> bool
    ensures { result ≡ plain.ends_term before last }
{
    match (before, last) {
        (_, None) | (None, Some(Shape::Sum)) => false,
        _ => true,
    }
}

// The shape of the term that factors make.
fn term_shape(before: Option<Shape>, last: Option<Shape>) -> Shape
    ensures { result ≡ plain.term_shape before last }
{
    match (before, last) {
        (None, Some(shape)) => shape,
        _ => Shape::Other,
    }
}

// Whether a bracket can close after a bound of this shape.
fn closes_behind(opening: Opening, shape: Shape) -> bool
    ensures { result ≡ plain.closes_behind opening shape }
{
    match opening {
        Opening::Maximum(some) => some && !matches!(shape, Shape::Maximum),
        Opening::Exponent => !matches!(shape, Shape::Constant(_) | Shape::Input(_)),
        Opening::Factor => matches!(shape, Shape::Sum),
    }
}

// The shape of the item that a bracket makes.
fn item_shape(opening: Opening) -> Shape
    ensures { result ≡ plain.item_shape opening }
{
    match opening {
        Opening::Maximum(_) => Shape::Maximum,
        Opening::Exponent => Shape::Other,
        Opening::Factor => Shape::Sum,
    }
}

// Whether the innermost bracket is that of a maximum.
fn in_maximum(round: Option<Frame>) -> bool
    ensures { result ≡ plain.in_maximum round }
{
    match round {
        Some(frame) => matches!(frame.opening, Opening::Maximum(_)),
        None => false,
    }
}

// The step that leads to this innermost bound and keeps the open brackets.
fn stays(innermost: Innermost) -> OutlineStep
    ensures { result ≡ plain.stays innermost }
{
    OutlineStep {
        innermost,
        change: Change::Keep,
    }
}

// That step if a test passes, else none.
fn stays_if(test: bool, innermost: Innermost) -> Option<OutlineStep>
    ensures { result ≡ when test (plain.stays innermost) }
{
    if test { Some(stays(innermost)) } else { None }
}

impl Innermost {
    // The innermost bound with one more factor, an item.
    fn with_item(self, item: Shape) -> Innermost
        ensures { result ≡ plain.with_item item self }
    {
        Innermost {
            terms: self.terms,
            before: before_last(Some(item), self.last),
            last: Some(item),
            stage: Stage::Item,
        }
    }

    // The state after a piece that completes no item.
    fn at_stage(self, stage: Stage) -> Innermost
        ensures { result ≡ plain.at_stage stage self }
    {
        Innermost {
            terms: self.terms,
            before: None,
            last: self.last,
            stage,
        }
    }

    // The innermost bound without its last factor, which `^` takes back.
    fn taken_back(self, stage: Stage) -> Innermost
        ensures terms { result.terms ≡ self.terms }
        ensures before { result.before ≡ None }
        ensures last { result.last ≡ self.before }
        ensures stage { result.stage ≡ stage }
    {
        Innermost {
            terms: self.terms,
            before: None,
            last: self.before,
            stage,
        }
    }

    // The innermost bound whose last factor is a run of a variable.
    fn with_run(self, variable: u32) -> Innermost
        ensures terms { result.terms ≡ self.terms }
        ensures before { result.before ≡ Some (shapes.Input variable) }
        ensures last { result.last ≡ Some (shapes.Input variable) }
        ensures stage { result.stage ≡ stages.Item }
    {
        Innermost {
            terms: self.terms,
            before: Some(Shape::Input(variable)),
            last: Some(Shape::Input(variable)),
            stage: Stage::Item,
        }
    }

    // The step with which a bracket opens.
    fn opens(self, opening: Opening) -> OutlineStep
        ensures { result ≡ plain.opens opening self }
    {
        let frame = Frame {
            opening,
            terms: self.terms,
            factors: self.last.is_some(),
        };
        OutlineStep {
            innermost: BEGUN,
            change: Change::Open(frame),
        }
    }

    // The shape of the bound that the terms and the factors make.
    fn bound_shape(self) -> Shape
        ensures { result ≡ plain.bound_shape self }
    {
        if self.terms {
            Shape::Sum
        } else {
            term_shape(self.before, self.last)
        }
    }

    // Whether a term can end after the factors.
    fn ends_term(self) -> bool
        ensures { result ≡ plain.ends_term self.before self.last }
    {
        ends_term(self.before, self.last)
    }

    // The step of a piece with which an item begins.
    fn begins_item(self, piece: BoundPiece) -> Option<OutlineStep>
        ensures { result ≡ plain.begins_item self (piece_of piece) }
    {
        match piece {
            BoundPiece::Variable(variable) => stays_if(
                !is_input(variable, self.last),
                self.with_item(Shape::Input(variable)),
            ),
            BoundPiece::Number(number) => Some(stays(self.with_item(Shape::Constant(number > 1)))),
            BoundPiece::Maximum => Some(self.opens(Opening::Maximum(false))),
            BoundPiece::Open => Some(self.opens(Opening::Factor)),
            _ => None,
        }
    }

    // The step of the number of a run.
    fn ends_run(self, variable: u32, piece: BoundPiece) -> Option<OutlineStep>
        ensures { result ≡ plain.ends_run variable self (piece_of piece) }
    {
        match piece {
            BoundPiece::Number(count) => stays_if(count > 1, self.with_run(variable)),
            _ => None,
        }
    }

    // The step of a piece with which an exponent begins.
    fn begins_exponent(self, piece: BoundPiece) -> Option<OutlineStep>
        ensures { result ≡ plain.begins_exponent self (piece_of piece) }
    {
        match piece {
            BoundPiece::Number(_) | BoundPiece::Variable(_) => Some(stays(self.with_item(
                Shape::Other,
            ))),
            BoundPiece::Open => Some(self.opens(Opening::Exponent)),
            _ => None,
        }
    }

    // The step of `^` after an item, which takes the last factor back.
    fn takes_back(self) -> Option<OutlineStep>
        ensures { result ≡ plain.takes_back self.last self }
    {
        match self.last {
            Some(Shape::Constant(base)) => stays_if(base, self.taken_back(Stage::Power)),
            Some(Shape::Input(variable)) => stays_if(
                !is_input(variable, self.before),
                self.taken_back(Stage::Run(variable)),
            ),
            _ => None,
        }
    }

    // The step of a closing bracket.
    fn closes(self, round: Option<Frame>) -> Option<OutlineStep>
        ensures { result ≡ plain.closes round self }
    {
        let frame = round?;
        if self.ends_term() && closes_behind(frame.opening, self.bound_shape()) {
            Some(OutlineStep {
                innermost: frame.behind(),
                change: Change::Close,
            })
        } else {
            None
        }
    }

    // Whether an argument can end after the factors.
    fn ends_argument(self, round: Option<Frame>) -> bool
        ensures { result ≡ plain.ends_argument round self }
    {
        in_maximum(round) && self.ends_term() && !matches!(self.bound_shape(), Shape::Maximum)
    }

    // The step of a piece that follows an item.
    fn follows_item(self, round: Option<Frame>, piece: BoundPiece) -> Option<OutlineStep>
        ensures { result ≡ plain.follows_item round self (piece_of piece) }
    {
        match piece {
            BoundPiece::Times => Some(stays(self.at_stage(Stage::Begins))),
            BoundPiece::Caret => self.takes_back(),
            BoundPiece::Blank => stays_if(self.ends_term(), self.at_stage(Stage::Blank)),
            BoundPiece::Comma => stays_if(self.ends_argument(round), self.at_stage(Stage::Comma)),
            BoundPiece::Close => self.closes(round),
            _ => None,
        }
    }

    // The step of a piece after the `+` of ` + `.
    fn ends_plus(self, piece: BoundPiece) -> Option<OutlineStep>
        ensures { result ≡ plain.ends_plus (piece_of piece) }
    {
        match piece {
            BoundPiece::Blank => {
                let innermost = Innermost {
                    terms: true,
                    before: None,
                    last: None,
                    stage: Stage::Begins,
                };
                Some(OutlineStep {
                    innermost,
                    change: Change::Term,
                })
            }
            _ => None,
        }
    }

    // The step of a piece after the `,` of `, `.
    fn ends_comma(self, round: Option<Frame>, piece: BoundPiece) -> Option<OutlineStep>
        ensures { result ≡ plain.ends_comma round (piece_of piece) }
    {
        match piece {
            BoundPiece::Blank if in_maximum(round) => Some(OutlineStep {
                innermost: BEGUN,
                change: Change::Argue,
            }),
            _ => None,
        }
    }

    /// The step of a piece, inside the innermost open bracket, if one is open; none if the piece can't follow.
    pub(crate) fn lead(self, round: Option<Frame>, piece: BoundPiece) -> Option<OutlineStep>
        ensures { result ≡ plain.lead round self (piece_of piece) }
    {
        match self.stage {
            Stage::Begins => self.begins_item(piece),
            Stage::Run(variable) => self.ends_run(variable, piece),
            Stage::Power => self.begins_exponent(piece),
            Stage::Item => self.follows_item(round, piece),
            Stage::Blank => stays_if(
                matches!(piece, BoundPiece::Plus),
                self.at_stage(Stage::Plus),
            ),
            Stage::Plus => self.ends_plus(piece),
            Stage::Comma => self.ends_comma(round, piece),
        }
    }
}

impl Frame {
    // The innermost bound after this bracket has closed.
    fn behind(self) -> Innermost
        ensures { result ≡ plain.behind_bracket self }
    {
        Innermost {
            terms: self.terms,
            before: any_factor(self.factors),
            last: Some(item_shape(self.opening)),
            stage: Stage::Item,
        }
    }
}
