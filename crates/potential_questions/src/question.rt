//! Questions as data: which symbols have functions, what each rule may do to them, and what is asked.

use poly_terms::Poly;
use potential_types::Charge;

/// What a move may gain: a constant, and multiples of places, each with the cost of a unit of it.
#[derive(Debug, Drop)]
pub struct GainOffer {
    pub constant: Option<i128>,
    pub places: Vec<PlaceOffer>,
}

/// A place that a gain may have with one sign.
#[derive(Clone, Copy, Debug)]
pub struct PlaceOffer {
    pub place: u32,
    /// 1 or -1.
    pub sign: i128,
    pub cost: i128,
}

/// What a rule that leads to a symbol with a function does to it.
#[derive(Debug, Drop)]
pub struct PlannedMove {
    pub rule: u32,
    pub keeps: bool,
    pub offer: GainOffer,
}

/// What the functions are to do.
#[derive(Drop)]
pub enum Aim {
    /// Pay for charges, by ascending rules.
    Pay(Vec<Charge>),
    /// Be at least a polynomial before each step by a rule.
    Cover(u32, Poly),
}

/// A question: are there functions of the listed symbols that move so, with this aim?
#[derive(Drop)]
pub struct Question {
    /// Whether each symbol has a function.
    pub listed: Vec<bool>,
    /// By ascending rules, those that lead to a listed symbol.
    pub moves: Vec<PlannedMove>,
    pub aim: Aim,
    /// The degree of functions and certificates, 1 or 2.
    pub degree: u32,
    /// The only direction at which the start function is judged, all of them where there is none.
    pub toward: Option<usize>,
}
