//! The parts of the node or the gap that is being read.

ghost use Rattle.std.specs.Prelude.{◌≡◌, ℕ, Bool, map, OnOk};
ghost use Rattle.cert_types.specs.AnswerViews.{scaled_of};
ghost use Rattle.cert_types.specs.Views.{proof_of};
ghost use Rattle.cert_text.specs.ParsedSoFar.{affine_of, draft_of};
ghost use Rattle.cert_text.specs.Remembered.{before_last, drafted, first_or, form_in, last_of, no_draft};
ghost use Rattle.cert_text.specs.Remembered.{no_form, no_point, numbered, point_in};
ghost use Rattle.cert_text.specs.Remembered.{in_32 as in_32_of, in_64 as in_64_of, shaped, signed as signed_of};
ghost use Rattle.cert_text.specs.declared.action.Action.TheVariants as action;

use crate::action::Action;
use cert_types::{CostBy, Form, LocalBound, Member, Proof, ResultVariable, SideBound};
use farkas_cert::Scaled;
use std::alloc::{AllocError, Global};
use std::mem::replace;

/// Coefficients and a constant.
#[derive(Drop)]
pub struct Affine {
    pub coefs: Vec<i64>,
    pub constant: i64,
}

/// The parts of the node or the gap that began last, as far as they were read.
#[derive(Drop)]
pub struct Draft {
    pub rule: u32,
    pub set: Vec<u32>,
    pub den: u64,
    /// The last lists of numbers: without signs, and with signs.
    pub numbers: Vec<u64>,
    pub integers: Vec<i64>,
    /// The forms and the multipliers of a ranking function.
    pub forms: Vec<Form>,
    pub moves: Vec<Vec<u64>>,
    /// A side bound that was read, the form before it, and the upper side bound.
    pub form: Affine,
    pub side_bound: SideBound,
    pub up: SideBound,
    /// A place that was read, and the places with their local bounds.
    pub result_variable: ResultVariable,
    pub members: Vec<Member>,
    /// How a cost is shown.
    pub by: CostBy,
    /// The premises of the node.
    pub uses: Vec<Proof>,
    /// The shut places, the last scaled points, and the moves and the floor of a gap.
    pub shut: Vec<(u32, u32)>,
    pub points: Vec<Scaled>,
    pub gap_moves: Vec<Scaled>,
    pub floor: Scaled,
}

/// A number as a `u32`, or the greatest number that a `u32` holds.
pub fn in_32(number: u128) -> u32
    ensures { result ≡ in_32_of number }
{
    number.min(u128::from(u32::MAX)) as u32
}

/// A number as a `u64`, or the greatest number that a `u64` holds.
pub fn in_64(number: u128) -> u64
    ensures { result ≡ in_64_of number }
{
    number.min(u128::from(u64::MAX)) as u64
}

// A number with its sign, up to 2^63-1.
fn signed(negative: bool, number: u128) -> i64
    ensures { result ≡ signed_of negative number }
{
    let size = number.min(i64::MAX as u128) as i64;
    if negative { -size } else { size }
}

// The numbers before the last one, and the last one, or 0 if there is none.
fn parted(numbers: Vec<i64>) -> (Vec<i64>, i64)
    ensures before { result.0.items ≡ before_last numbers.items }
    ensures last { result.1 ≡ last_of numbers.items }
{
    let mut numbers = numbers;
    match numbers.pop() {
        Some(last) => (numbers, last),
        None => (numbers, 0),
    }
}

// Numbers as coefficients and a constant, the last one.
fn affine_from(numbers: Vec<i64>) -> Affine
    ensures { affine_of result ≡ form_in numbers.items }
{
    let (coefs, constant) = parted(numbers);
    Affine { coefs, constant }
}

// Numbers as a scaled point: its parts, and the denominator as the last one.
fn point_from(numbers: Vec<i64>) -> Scaled
    ensures { scaled_of result ≡ point_in numbers.items }
{
    let (parts, last) = parted(numbers);
    Scaled {
        parts,
        den: last.unsigned_abs(),
    }
}

// The form without coefficients, 0.
fn no_affine(alloc: Global) -> Affine
    ensures { affine_of result ≡ no_form }
{
    Affine {
        coefs: Vec::new(alloc),
        constant: 0,
    }
}

// The scaled point without parts.
fn no_scaled(alloc: Global) -> Scaled
    ensures { scaled_of result ≡ no_point }
{
    Scaled {
        parts: Vec::new(alloc),
        den: 0,
    }
}

impl Draft {
    /// The parts of a node or a gap of which nothing was read.
    pub fn new(alloc: Global) -> Draft
        ensures { draft_of result ≡ no_draft }
    {
        Draft {
            rule: 0,
            set: Vec::new(alloc),
            den: 0,
            numbers: Vec::new(alloc),
            integers: Vec::new(alloc),
            forms: Vec::new(alloc),
            moves: Vec::new(alloc),
            form: no_affine(alloc),
            side_bound: SideBound::Poly,
            up: SideBound::Poly,
            result_variable: ResultVariable { rule: 0, place: 0 },
            members: Vec::new(alloc),
            by: CostBy::Never,
            uses: Vec::new(alloc),
            shut: Vec::new(alloc),
            points: Vec::new(alloc),
            gap_moves: Vec::new(alloc),
            floor: no_scaled(alloc),
        }
    }

    /// Changes the parts by an action, given the last number, its sign and the last symbol.
    ///
    /// # Errors
    ///
    /// `AllocError` where an allocation fails.
    pub fn act(
        &mut self,
        alloc: Global,
        action: Action,
        number: u128,
        negative: bool,
        symbol: u32,
    ) -> Result<(), AllocError>
        ensures { OnOk result (draft_of self.new ≡ drafted number negative symbol action (draft_of self.old)) }
    {
        self.act_number(alloc, action, number, negative, symbol)?;
        self.act_shape(alloc, action)
    }

    // Changes the parts by an action on numbers.
    fn act_number(
        &mut self,
        alloc: Global,
        action: Action,
        number: u128,
        negative: bool,
        symbol: u32,
    ) -> Result<(), AllocError>
        ensures { OnOk result (draft_of self.new ≡ numbered number negative symbol action (draft_of self.old)) }
    {
        match action {
            Action::RuleRead => self.rule = in_32(number),
            Action::RuleListed => self.set.push(in_32(number))?,
            Action::NumberRead => self.den = in_64(number),
            Action::ListBegins => {
                self.numbers = Vec::new(alloc);
                self.integers = Vec::new(alloc);
            }
            Action::Listed => self.numbers.push(in_64(number))?,
            Action::IntegerRead => self.integers.push(signed(negative, number))?,
            Action::FormRead => self.read_form(alloc, symbol)?,
            Action::MoveRead => self.read_move(alloc)?,
            Action::ResultVariableRead => {
                self.result_variable = ResultVariable {
                    rule: self.rule,
                    place: in_32(number),
                };
            }
            _ => {}
        }
        Ok(())
    }

    // Changes the parts by an action on side bounds, on how a cost is shown or on scaled points.
    fn act_shape(&mut self, alloc: Global, action: Action) -> Result<(), AllocError>
        ensures { OnOk result (draft_of self.new ≡ shaped action (draft_of self.old)) }
    {
        match action {
            Action::UpRead => self.up = replace(&mut self.side_bound, SideBound::Poly),
            Action::LowRead => self.read_member()?,
            Action::PolyRead => self.side_bound = SideBound::Poly,
            Action::SideBoundFormRead => {
                self.form = affine_from(replace(&mut self.integers, Vec::new(alloc)));
            }
            Action::SideBoundRead => self.read_side_bound(alloc),
            Action::ByEmptyRead => {
                self.by = CostBy::Empty(replace(&mut self.numbers, Vec::new(alloc)));
            }
            Action::ByNeverRead => self.by = CostBy::Never,
            Action::BySideBoundRead => self.by = CostBy::SideBound(replace(
                &mut self.side_bound,
                SideBound::Poly,
            )),
            Action::PointRead => self.read_point(alloc)?,
            Action::GapMovesRead => {
                self.gap_moves = replace(&mut self.points, Vec::new(alloc));
            }
            Action::GapFloorRead => self.read_floor(alloc),
            _ => {}
        }
        Ok(())
    }

    /// The parts with these premises.
    pub fn resting_on(self, uses: Vec<Proof>) -> Draft
        ensures { draft_of result ≡ record (draft_of self) { uses = map proof_of uses.items } }
    {
        let mut draft = self;
        draft.uses = uses;
        draft
    }

    // Adds the form of a symbol.
    fn read_form(&mut self, alloc: Global, symbol: u32) -> Result<(), AllocError>
        ensures { (n : ℕ) (negative : Bool) → OnOk result
            (draft_of self.new ≡ numbered n negative symbol action.FormRead (draft_of self.old)) }
    {
        let Affine { coefs, constant } = affine_from(replace(&mut self.integers, Vec::new(alloc)));
        self.forms.push(Form {
            symbol,
            coefs,
            constant,
        })?;
        Ok(())
    }

    // Adds a list of multipliers.
    fn read_move(&mut self, alloc: Global) -> Result<(), AllocError>
        ensures { (n symbol : ℕ) (negative : Bool) → OnOk result
            (draft_of self.new ≡ numbered n negative symbol action.MoveRead (draft_of self.old)) }
    {
        let numbers = replace(&mut self.numbers, Vec::new(alloc));
        self.moves.push(numbers)?;
        Ok(())
    }

    // Adds a place with its local bound.
    fn read_member(&mut self) -> Result<(), AllocError>
        ensures { OnOk result (draft_of self.new ≡ shaped action.LowRead (draft_of self.old)) }
    {
        let up = replace(&mut self.up, SideBound::Poly);
        let low = replace(&mut self.side_bound, SideBound::Poly);
        let local = LocalBound { up, low };
        self.members.push(Member {
            result_variable: self.result_variable,
            local,
        })?;
        Ok(())
    }

    // Makes a linear side bound of the form and the multipliers.
    fn read_side_bound(&mut self, alloc: Global)
        ensures { draft_of self.new ≡ shaped action.SideBoundRead (draft_of self.old) }
    {
        let Affine { coefs, constant } = replace(&mut self.form, no_affine(alloc));
        let multipliers = replace(&mut self.numbers, Vec::new(alloc));
        self.side_bound = SideBound::Linear {
            den: self.den,
            coefs,
            constant,
            multipliers,
        };
    }

    // Adds a scaled point.
    fn read_point(&mut self, alloc: Global) -> Result<(), AllocError>
        ensures { OnOk result (draft_of self.new ≡ shaped action.PointRead (draft_of self.old)) }
    {
        let point = point_from(replace(&mut self.integers, Vec::new(alloc)));
        self.points.push(point)?;
        Ok(())
    }

    // Takes the last scaled point as the floor of a gap.
    fn read_floor(&mut self, alloc: Global)
        ensures { draft_of self.new ≡ shaped action.GapFloorRead (draft_of self.old) }
    {
        let points = replace(&mut self.points, Vec::new(alloc));
        self.floor = first_point(alloc, points);
    }
}

// The first of some points, or the point without parts if there are none.
fn first_point(alloc: Global, points: Vec<Scaled>) -> Scaled
    ensures { scaled_of result ≡ first_or no_point (map scaled_of points.items) }
{
    if points.is_empty() {
        return no_scaled(alloc);
    }
    let mut points = points;
    points.remove(0)
}
