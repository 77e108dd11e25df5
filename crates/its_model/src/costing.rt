//! Builds the program that leads to the cost of a rule's steps.

ghost use Rattle.std.specs.Prelude.{◌≡◌, ◌<◌, IfOk, Some, length, option_map};
ghost use Rattle.poly_terms.specs.model.Costs.{cost_rule, HasCost};
ghost use Rattle.poly_terms.specs.Views.{term_of};
ghost use Rattle.its_model.specs.CostPrograms.{cost_name, cost_program as cost_program_of, IsCostProgram};
ghost use Rattle.its_model.specs.CostPrograms.{CostProgramsStateCosts};
ghost use Rattle.its_model.specs.Valid.{IsValid};
ghost use Rattle.its_model.specs.Views.{name_of, symbol_of, rule_of, program_of};

use crate::copies::{copied_atoms, copied_expr, copied_names, copied_symbol, left_names};
use crate::guard::{Atom, Rel};
use crate::program::{Program, Rule, Symbol};
use poly_terms::{Expr, Memory};
use std::alloc::Global;
use text_core::Name;

/// The program of the cost of the rule with this number, which must have a cost. The program has one rule: it leaves
/// the given rule's source, where the program starts, has the given rule's variables and its guard with the atom that
/// the cost is at least 0, and leads to the cost as the only value of a symbol named `$`, or `$$` if the source is
/// called `$`.
///
/// # Errors
///
/// `Memory` if an allocation fails.
pub fn cost_program(alloc: Global, p: &Program, rule: u32) -> Result<Program, Memory>
    requires valid { IsValid (program_of p.now) }
    requires costs { HasCost (program_of p.now) rule }
    ensures program { IfOk result (λ q. IsCostProgram (program_of p.now) rule (program_of q)) }
    ensures valid { IfOk result (λ q. IsValid (program_of q)) }
{
    let costing = &p.rules[rule as usize - 1];
    match &costing.cost {
        Some(cost) => program_from(alloc, &p.symbols[costing.source as usize], costing, cost),
        None => unreachable!(),
    }
}

// The program of a cost of a rule that leaves a symbol.
fn program_from(alloc: Global, source: &Symbol, rule: &Rule, cost: &Expr) -> Result<Program, Memory>
    ensures { IfOk result (λ q. program_of q
        ≡ cost_program_of (symbol_of source.now) (rule_of rule.now) (term_of cost.now)) }
{
    let mut symbols = Vec::new(alloc);
    symbols.push(copied_symbol(alloc, source)?)?;
    symbols.push(Symbol {
        name: target_name(alloc, &source.name)?,
        arity: 1,
    })?;
    let mut rules = Vec::new(alloc);
    rules.push(rule_from(alloc, rule, cost)?)?;
    Ok(Program {
        symbols,
        start: 0,
        start_names: left_names(alloc, rule)?,
        rules,
    })
}

// The name of the target symbol, by that of the source.
fn target_name(alloc: Global, source: &Name) -> Result<Name, Memory>
    ensures { IfOk result (λ n. name_of n ≡ cost_name (name_of source.now)) }
{
    let bytes = if source.bytes.as_slice() == b"$".as_slice() {
        b"$$".to_vec(alloc)?
    } else {
        b"$".to_vec(alloc)?
    };
    Ok(Name { bytes })
}

// The rule that leads to the cost of a rule.
fn rule_from(alloc: Global, rule: &Rule, cost: &Expr) -> Result<Rule, Memory>
    ensures { IfOk result (λ r. rule_of r ≡ cost_rule (rule_of rule.now) (term_of cost.now)) }
{
    let mut updates = Vec::new(alloc);
    updates.push(copied_expr(alloc, cost)?)?;
    let mut guard = copied_atoms(alloc, &rule.guard)?;
    guard.push(Atom::Compare {
        left: copied_expr(alloc, cost)?,
        rel: Rel::Ge,
        right: Expr::Num(0),
    })?;
    Ok(Rule {
        source: 0,
        target: 1,
        left: rule.left,
        free: rule.free,
        names: copied_names(alloc, &rule.names)?,
        updates,
        guard,
        cost: None,
    })
}

/// The program of a cost is valid if the given program is, and its only rule leads to the cost of each step whose cost
/// isn't negative, and to nothing else. The function has no code: its contract is the law.
pub fn cost_programs_state_costs()
    ensures { CostProgramsStateCosts }
{}
