//! Programs: symbols, rules and the start symbol.

use crate::guard::Atom;
use poly_terms::Expr;
use text_core::Name;

/// A function symbol, which is a location of the transition system, with the number of its places.
#[derive(Debug, PartialEq, Eq, Drop)]
pub struct Symbol {
    pub name: Name,
    pub arity: u32,
}

/// A rule. Its variables are numbered from 0, the left ones first, one for each place of the source, then the free
/// ones.
#[derive(Debug, PartialEq, Eq, Drop)]
pub struct Rule {
    /// The number of the symbol that a step by this rule leaves.
    pub source: u32,
    /// The number of the symbol that a step by this rule reaches.
    pub target: u32,
    /// The number of left variables.
    pub left: u32,
    /// The number of free variables.
    pub free: u32,
    /// The names of the variables, one each.
    pub names: Vec<Name>,
    /// The new value of each place of the target.
    pub updates: Vec<Expr>,
    /// The atoms that have to hold.
    pub guard: Vec<Atom>,
    /// The cost of a step, over the values before it; a rule without one costs 1.
    pub cost: Option<Expr>,
}

/// An integer transition system. Symbols are numbered from 0 in order of first occurrence in the rules, rules from 1 in
/// the order of the text.
#[derive(Debug, PartialEq, Eq, Drop)]
pub struct Program {
    pub symbols: Vec<Symbol>,
    /// The number of the symbol at which each run starts.
    pub start: u32,
    /// The names of the start arguments: the left variables of the first rule whose source is the start symbol.
    pub start_names: Vec<Name>,
    pub rules: Vec<Rule>,
}
