//! The rules of a program, prepared for questions.

use crate::error::{SearchError, as_number};
use crate::reaching::{SymbolGraph, set_mark};
use crate::sparse::{SparseForm, small_sparse_of, sparse_of};
use crate::squares::push_square_rows;
use guard_prep::RuleRows;
use its_model::{Program, Rule};
use poly_terms::{Memory, Poly};
use potential_types::copied_poly;
use std::alloc::Global;

/// Two rows of which the one is the opposite of the other, so both are 0, by their numbers from 0.
#[derive(Clone, Copy, Debug, PartialEq, Eq)]
pub struct ZeroRows {
    pub row: u32,
    pub opposite: u32,
}

/// A rule: where it leads, its rows, and its new values.
#[derive(Debug, Drop)]
pub struct PreparedRule {
    pub source: u32,
    pub target: u32,
    /// How many left variables there are, and how many with the free ones.
    pub left: u32,
    pub variables: u32,
    /// How many unknowns there are.
    pub unknowns: u32,
    /// The rows of the guard, and behind them rows of squares.
    pub rows: Vec<SparseForm>,
    pub new_values: Vec<SparseForm>,
    /// The expanded polynomial of each update.
    pub updates: Vec<Poly>,
    pub equations: Vec<ZeroRows>,
}

/// A program, prepared.
#[derive(Debug, Drop)]
pub struct System {
    pub start: u32,
    /// The number of places of each symbol.
    pub places: Vec<u32>,
    /// Rule t at t - 1.
    pub rules: Vec<PreparedRule>,
    /// The numbers of the rules are those from 1 on below this one.
    pub rule_end: u32,
    graph: SymbolGraph,
}

/// The rules of a program with their prepared rows, in order.
///
/// # Errors
///
/// `Range` where the program has 2^32 - 1 rules, or a rule as many variables; `Memory` where an allocation fails.
pub fn system_of(
    alloc: Global,
    program: &Program,
    prepared_rules: &[RuleRows],
) -> Result<System, SearchError> {
    let mut places = Vec::new(alloc);
    for symbol in &program.symbols {
        places.push(symbol.arity)?;
    }
    let mut rules = Vec::new(alloc);
    for (rule, prepared) in program.rules.iter().zip(prepared_rules.iter()) {
        rules.push(prepared_rule(alloc, rule, prepared)?)?;
    }
    let rule_end = as_number(rules.len())?
        .checked_add(1)
        .ok_or(SearchError::Range)?;
    let graph = SymbolGraph::new(alloc, places.len(), &rules)?;
    Ok(System {
        start: program.start,
        places,
        rules,
        rule_end,
        graph,
    })
}

// A rule with its rows.
fn prepared_rule(
    alloc: Global,
    rule: &Rule,
    prepared: &RuleRows,
) -> Result<PreparedRule, SearchError> {
    let mut rows = Vec::new(alloc);
    for row in &prepared.rows {
        rows.push(small_sparse_of(alloc, row)?)?;
    }
    let mut new_values = Vec::new(alloc);
    for row in &prepared.new_values {
        new_values.push(sparse_of(alloc, row)?)?;
    }
    let equations = equations_in(alloc, &rows)?;
    let variables = rule.left.checked_add(rule.free).ok_or(SearchError::Range)?;
    push_square_rows(alloc, &mut rows, prepared, variables)?;
    Ok(PreparedRule {
        source: rule.source,
        target: rule.target,
        left: prepared.left,
        variables,
        unknowns: prepared.unknowns,
        rows,
        new_values,
        updates: copied_updates(alloc, &prepared.polys)?,
        equations,
    })
}

// Copies of polynomials.
fn copied_updates(alloc: Global, updates: &[Poly]) -> Result<Vec<Poly>, Memory> {
    let mut copies = Vec::new(alloc);
    for update in updates {
        copies.push(copied_poly(alloc, update)?)?;
    }
    Ok(copies)
}

// The rows of which a later row is the opposite, each with that one.
fn equations_in(alloc: Global, rows: &[SparseForm]) -> Result<Vec<ZeroRows>, SearchError> {
    let mut equations = Vec::new(alloc);
    for (i, row) in rows.iter().enumerate() {
        for (j, other) in rows.iter().enumerate() {
            if i < j && row.is_opposite_of(other) {
                equations.push(ZeroRows {
                    row: as_number(i)?,
                    opposite: as_number(j)?,
                })?;
            }
        }
    }
    Ok(equations)
}

impl PreparedRule {
    /// Whether the rule sets each place of a polynomial without reading it.
    pub fn sets_places_of(&self, form: &Poly) -> bool {
        form.terms
            .iter()
            .all(|term| term.vars.iter().all(|place| self.sets(*place)))
    }

    // Whether the new value of a place doesn't read the place.
    fn sets(&self, place: u32) -> bool {
        match self.new_values.get(place as usize) {
            Some(value) => value.terms.iter().all(|term| term.unknown != place),
            None => false,
        }
    }
}

impl System {
    /// The rule with a number, from 1.
    pub fn rule(&self, number: u32) -> Option<&PreparedRule> {
        let before = number.checked_sub(1)?;
        self.rules.get(before as usize)
    }

    /// How many places a symbol has.
    pub fn places_of(&self, symbol: u32) -> u32 {
        self.places.get(symbol as usize).copied().unwrap_or(0)
    }

    /// The symbols from which rules lead to some of these, themselves among them.
    ///
    /// # Errors
    ///
    /// `Memory` where an allocation fails.
    pub fn leading_to(&self, alloc: Global, goals: &[u32]) -> Result<Vec<bool>, Memory> {
        self.graph.leading_to(alloc, goals)
    }

    /// The symbols to which rules lead from this one, itself among them.
    ///
    /// # Errors
    ///
    /// `Memory` where an allocation fails.
    pub fn reached_from(&self, alloc: Global, symbol: u32) -> Result<Vec<bool>, Memory> {
        self.graph.reached_from(alloc, &[symbol])
    }

    /// The symbols from which rules lead to one and back from it, itself among them.
    ///
    /// # Errors
    ///
    /// `Memory` where an allocation fails.
    pub fn component_of(&self, alloc: Global, symbol: u32) -> Result<Vec<bool>, Memory> {
        let leading = self.leading_to(alloc, &[symbol])?;
        let reached = self.reached_from(alloc, symbol)?;
        let mut marks = Vec::new(alloc);
        for (leads, is_reached) in leading.iter().zip(reached.iter()) {
            marks.push(*leads && *is_reached)?;
        }
        Ok(marks)
    }
}

/// A symbol alone.
///
/// # Errors
///
/// `Memory` where an allocation fails.
pub fn marked_alone(alloc: Global, system: &System, symbol: u32) -> Result<Vec<bool>, Memory> {
    let mut marks = vec![in alloc; false; system.places.len()]?;
    set_mark(&mut marks, symbol);
    Ok(marks)
}

/// Whether a symbol is marked.
pub fn is_marked(marks: &[bool], symbol: u32) -> bool {
    marks.get(symbol as usize).copied().unwrap_or(false)
}
