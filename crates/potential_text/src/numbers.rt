//! The numbers that were read last.

ghost use Rattle.std.specs.Prelude.{◌≡◌};
ghost use Rattle.potential_text.specs.Numbers as numbers;

use crate::action::{Field, Role};

/// The number that each field had last, and how many nodes the bound has that is being read.
#[derive(Clone, Copy, Debug, PartialEq, Eq)]
pub struct Numbers {
    /// Whether the last number with a sign has a `-`, and this number without it.
    pub negative: bool,
    pub size: u64,
    /// Rules, places and facts, from 1 on.
    pub rule: u32,
    pub step: u32,
    pub place: u32,
    pub first: u32,
    pub second: u32,
    /// Rows and variables, from 0 on.
    pub row: u32,
    pub other: u32,
    pub variable: u32,
    /// A symbol, from 0 on.
    pub symbol: u32,
    pub den: u64,
    pub amount: u64,
    pub base: u64,
    pub divisor: u128,
    /// Whether a bound is being read, and the number of its nodes, up to one more than there may be.
    pub bounding: bool,
    pub nodes: u64,
}

/// A number as 32 bits hold it, or the greatest that they hold.
pub fn in_32(number: u128) -> u32
    ensures { result ≡ numbers.in_32 number }
{
    number.min(u128::from(u32::MAX)) as u32
}

/// A number, counted from 1 on, as it is counted from 0 on.
pub fn index_of(number: u128) -> u32
    ensures { result ≡ numbers.index_of number }
{
    in_32(number.saturating_sub(1))
}

/// A number as 64 bits hold it, or the greatest that they hold.
pub fn in_64(number: u128) -> u64
    ensures { result ≡ numbers.in_64 number }
{
    number.min(u128::from(u64::MAX)) as u64
}

/// A number with its sign, up to 2^63-1 in absolute value.
pub fn signed(negative: bool, number: u64) -> i64
    ensures { result ≡ numbers.signed negative number }
{
    let size = number.min(i64::MAX as u64) as i64;
    if negative { -size } else { size }
}

/// Whether a piece in this role is a node of a bound.
pub fn is_node(role: Role) -> bool
    ensures { result ≡ numbers.is_node role }
{
    match role {
        Role::Constant | Role::BoundWord | Role::Factor | Role::Number(Field::Size) => true,
        _ => false,
    }
}

impl Numbers {
    /// No number was read.
    pub fn new() -> Numbers
        ensures { result ≡ numbers.no_numbers }
    {
        Numbers {
            negative: false,
            size: 0,
            rule: 0,
            step: 0,
            place: 0,
            first: 0,
            second: 0,
            row: 0,
            other: 0,
            variable: 0,
            symbol: 0,
            den: 0,
            amount: 0,
            base: 0,
            divisor: 0,
            bounding: false,
            nodes: 0,
        }
    }

    /// The last number with a sign.
    pub fn signed_size(self) -> i64
        ensures { result ≡ numbers.signed_size self }
    {
        signed(self.negative, self.size)
    }

    /// A number of a field was read.
    pub fn put(&mut self, field: Field, number: u128)
        ensures { self.new ≡ numbers.with_field field number self.old }
    {
        match field {
            Field::Size => self.size = in_64(number),
            Field::Rule => self.rule = in_32(number),
            Field::Step => self.step = in_32(number),
            Field::Place => self.place = in_32(number),
            Field::First => self.first = in_32(number),
            Field::Second => self.second = in_32(number),
            Field::Row => self.row = index_of(number),
            Field::Other => self.other = index_of(number),
            Field::Variable => self.variable = index_of(number),
            Field::Den => self.den = in_64(number),
            Field::Amount => self.amount = in_64(number),
            Field::Base => self.base = in_64(number),
            Field::Divisor => self.divisor = number,
        }
    }

    /// A piece was read in a role: where it is a node of a bound, that has one more.
    pub fn count(&mut self, role: Role)
        ensures { self.new ≡ numbers.with_node role self.old }
    {
        if self.bounding && is_node(role) {
            self.nodes = self.nodes.saturating_add(1).min(4097);
        }
    }

    /// A bound begins.
    pub fn begin_bound(&mut self)
        ensures { self.new ≡ numbers.bound_begun self.old }
    {
        self.bounding = true;
        self.nodes = 0;
    }
}
