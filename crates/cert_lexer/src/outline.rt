//! Outlines: the data that steps depend on, of the pieces of a bound read so far, in constant size and without a tree.

ghost use Rattle.std.specs.Prelude.{◌≡◌, OnOk, []};
ghost use Rattle.cert_lexer.specs.Outlines as plain;
ghost use Rattle.cert_lexer.specs.Representation.{frames_in};

use std::alloc::{AllocError, Global};

/// The shape of a part: of a constant whether it can be a base, of a variable which one, and of others the kind alone.
#[derive(Clone, Copy)]
pub(crate) enum Shape {
    Constant(bool),
    Input(u32),
    Sum,
    Maximum,
    Other,
}

/// The node that an open bracket belongs to: a maximum, with or without arguments yet, an exponent, or a sum as a
/// factor.
#[derive(Clone, Copy)]
pub(crate) enum Opening {
    Maximum(bool),
    Exponent,
    Factor,
}

/// An open bracket, and whether terms and factors come before it.
#[derive(Clone, Copy)]
pub(crate) struct Frame {
    pub opening: Opening,
    pub terms: bool,
    pub factors: bool,
}

/// The part read last in the innermost bound: none, so that an item can follow; the `^` of a run of a variable or of a
/// power; an item; or a part of ` + ` or of `, `.
#[derive(Clone, Copy)]
pub(crate) enum Stage {
    Begins,
    Run(u32),
    Power,
    Item,
    Blank,
    Plus,
    Comma,
}

/// The innermost bound: whether terms come before; its last factor, and what comes before that one; and what was read
/// last.
#[derive(Clone, Copy)]
pub(crate) struct Innermost {
    pub terms: bool,
    pub before: Option<Shape>,
    pub last: Option<Shape>,
    pub stage: Stage,
}

/// The change of the open brackets by a piece: none, also if a term ends; a bracket opens; the innermost bracket
/// closes; or an argument in it ends.
#[derive(Clone, Copy)]
pub(crate) enum Change {
    Keep,
    Term,
    Open(Frame),
    Close,
    Argue,
}

/// The result of a step: the innermost bound, and the change of the open brackets.
#[derive(Clone, Copy)]
pub(crate) struct OutlineStep {
    pub innermost: Innermost,
    pub change: Change,
}

/// The pieces read so far, without their tree: the open brackets, the outermost first, and the innermost bound.
#[derive(Drop)]
pub(crate) struct Outline {
    pub frames: Vec<Frame>,
    pub innermost: Innermost,
}

/// An innermost bound of which nothing has been read.
pub(crate) const BEGUN: Innermost = Innermost {
    terms: false,
    before: None,
    last: None,
    stage: Stage::Begins,
};

impl Outline {
    /// The outline in which nothing has been read.
    pub(crate) fn new(alloc: Global) -> Outline
        ensures frames { frames_in result ≡ [] }
        ensures innermost { result.innermost ≡ plain.begun }
    {
        Outline {
            frames: Vec::new(alloc),
            innermost: BEGUN,
        }
    }

    /// The innermost open bracket.
    #[tactic(auto, using(crate::proofs::ListLaws::frame_last))]
    pub(crate) fn round(&self) -> Option<Frame>
        ensures { result ≡ plain.innermost_frame (frames_in self.now) }
    {
        self.frames.last().copied()
    }

    /// Takes the step.
    ///
    /// # Errors
    ///
    /// `AllocError` where an allocation fails.
    pub(crate) fn follow(&mut self, lead: OutlineStep) -> Result<(), AllocError>
        ensures frames { OnOk result (frames_in self.new ≡ plain.frames_behind lead.change (frames_in self.old)) }
        ensures innermost { OnOk result (self.new.innermost ≡ lead.innermost) }
    {
        self.change(lead.change)?;
        self.innermost = lead.innermost;
        Ok(())
    }

    // Changes the open brackets.
    fn change(&mut self, change: Change) -> Result<(), AllocError>
        ensures { OnOk result (frames_in self.new ≡ plain.frames_behind change (frames_in self.old)) }
    {
        match change {
            Change::Keep | Change::Term => {}
            Change::Open(frame) => self.frames.push(frame)?,
            Change::Close => {
                let _frame = self.frames.pop();
            }
            Change::Argue => {
                if let Some(mut frame) = self.frames.pop() {
                    frame.opening = Opening::Maximum(true);
                    self.frames.push(frame)?;
                }
            }
        }
        Ok(())
    }
}
