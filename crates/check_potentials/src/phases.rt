//! The tables of nodes of two phases.

ghost use Rattle.std.specs.Prelude.{◌≡◌, map, IfOk};
ghost use Rattle.poly_terms.specs.Views.{monomials_of};
ghost use Rattle.potential_nodes.specs.PhaseNodes as plain;
ghost use Rattle.potential_nodes.specs.PhaseNodes.{first_move as move_of_first, second_move as move_of_second};
ghost use Rattle.potential_nodes.specs.PhaseNodes.{first_table as table_of_first, second_table as table_of_second};
ghost use Rattle.potential_nodes.specs.PhaseNodes.{unit_payment as payment_of_1};
ghost use Rattle.potential_types.specs.Views.{counted_of, function_of, move_of, payment_of, phase_move_of};
ghost use Rattle.potential_types.specs.Views.{phases_node_of, table_of};
ghost use Rattle.check_potentials.specs.Grounds.{plain_ground};
ghost use Rattle.check_potentials.specs.Phases.{ArePhasesOf, gain_of_second};

use crate::functions::is_paid;
use crate::ground::Ground;
use crate::moves::source_form;
use poly_terms::{Memory, Monomial, Poly};
use potential_types::{
    CountedRule, Move, Payment, PhaseMove, PhasesNode, PotentialTable, SymbolFunction,
    copied_certificate, copied_monomials, copied_poly, one_poly,
};
use std::alloc::Global;

/// The first and the second functions of a node of two phases as tables, and what it counts, as payments of 1.
#[derive(Drop)]
pub struct Phases {
    pub first: PotentialTable,
    pub second: PotentialTable,
    pub payments: Vec<Payment>,
}

/// The tables of a node of two phases.
///
/// # Errors
///
/// `Memory` where an allocation fails.
pub(crate) fn phases_of(alloc: Global, ground: Ground, node: &PhasesNode) -> Result<Phases, Memory>
    ensures { IfOk result (λ tables. ArePhasesOf (plain_ground ground.entry) (phases_node_of node.now) tables) }
{
    let payments = unit_payments(alloc, &node.counted)?;
    let first = first_table(alloc, node)?;
    let second = second_table(alloc, ground, node, &first, &payments)?;
    Ok(Phases {
        first,
        second,
        payments,
    })
}

// Functions, in order.
fn copied_functions(
    alloc: Global,
    functions: &[SymbolFunction],
) -> Result<Vec<SymbolFunction>, Memory>
    ensures { IfOk result (λ copies. map function_of copies.items ≡ map function_of functions.now) }
{
    let mut copies = Vec::new(alloc);
    for function in functions {
        let form = copied_poly(alloc, &function.form)?;
        copies.push(SymbolFunction {
            symbol: function.symbol,
            form,
        })?;
    }
    Ok(copies)
}

/// A move that keeps the first functions, without a gain.
///
/// # Errors
///
/// `Memory` where an allocation fails.
pub(crate) fn first_move(alloc: Global, step: &PhaseMove) -> Result<Move, Memory>
    ensures { IfOk result (λ m. move_of m ≡ move_of_first (phase_move_of step.now)) }
{
    let certificate = copied_certificate(alloc, &step.first)?;
    Ok(Move {
        rule: step.rule,
        keeps: true,
        gain: Poly {
            terms: Vec::new(alloc),
        },
        cited: None,
        certificate,
    })
}

// The moves of the first functions, in order.
fn first_moves(alloc: Global, steps: &[PhaseMove]) -> Result<Vec<Move>, Memory>
    ensures { IfOk result (λ moves. map move_of moves.items ≡ map move_of_first (map phase_move_of steps.now)) }
{
    let mut moves = Vec::new(alloc);
    for step in steps {
        moves.push(first_move(alloc, step)?)?;
    }
    Ok(moves)
}

// The first functions as a table.
fn first_table(alloc: Global, node: &PhasesNode) -> Result<PotentialTable, Memory>
    ensures { IfOk result (λ t. table_of t ≡ table_of_first (phases_node_of node.now)) }
{
    let functions = copied_functions(alloc, &node.firsts)?;
    let moves = first_moves(alloc, &node.moves)?;
    Ok(PotentialTable {
        functions,
        den: node.den,
        moves,
    })
}

// What is counted, as payments of 1.
fn unit_payments(alloc: Global, counted: &[CountedRule]) -> Result<Vec<Payment>, Memory>
    ensures { IfOk result
        (λ payments. map payment_of payments.items ≡ map payment_of_1 (map counted_of counted.now)) }
{
    let mut payments = Vec::new(alloc);
    for rule in counted {
        payments.push(unit_payment(alloc, rule)?)?;
    }
    Ok(payments)
}

// A counted rule pays 1.
fn unit_payment(alloc: Global, rule: &CountedRule) -> Result<Payment, Memory>
    ensures { IfOk result (λ y. payment_of y ≡ payment_of_1 (counted_of rule.now)) }
{
    let amount = one_poly(alloc)?;
    let floor = copied_certificate(alloc, &rule.floor)?;
    Ok(Payment {
        rule: rule.rule,
        amount,
        floor,
        positive: Vec::new(alloc),
    })
}

// What the second function gains by a rule: the first function of its source, if the rule is counted.
fn second_gain(
    alloc: Global,
    ground: Ground,
    first: &PotentialTable,
    payments: &[Payment],
    rule: u32,
) -> Result<Vec<Monomial>, Memory>
    ensures { IfOk result (λ ms. monomials_of ms.items ≡ gain_of_second (plain_ground ground.entry) (table_of first.now)
        (map payment_of payments.now) rule) }
{
    if is_paid(payments, rule) {
        return copied_monomials(alloc, source_form(ground, first, rule));
    }
    Ok(Vec::new(alloc))
}

/// A move that keeps the second functions, with its gain.
///
/// # Errors
///
/// `Memory` where an allocation fails.
pub(crate) fn second_move(
    alloc: Global,
    ground: Ground,
    first: &PotentialTable,
    payments: &[Payment],
    step: &PhaseMove,
) -> Result<Move, Memory>
    ensures { IfOk result (λ m. (n : plain.PhasesNode) → table_of first.now ≡ table_of_first n
        → map payment_of payments.now ≡ map payment_of_1 n.counted
        → move_of m ≡ move_of_second (plain_ground ground.entry) n (phase_move_of step.now)) }
{
    let terms = second_gain(alloc, ground, first, payments, step.rule)?;
    let certificate = copied_certificate(alloc, &step.second)?;
    Ok(Move {
        rule: step.rule,
        keeps: true,
        gain: Poly { terms },
        cited: None,
        certificate,
    })
}

// The moves of the second functions, in order.
fn second_moves(
    alloc: Global,
    ground: Ground,
    first: &PotentialTable,
    payments: &[Payment],
    steps: &[PhaseMove],
) -> Result<Vec<Move>, Memory>
    ensures { IfOk result (λ moves. (n : plain.PhasesNode) → table_of first.now ≡ table_of_first n
        → map payment_of payments.now ≡ map payment_of_1 n.counted
        → map move_of moves.items ≡ map (move_of_second (plain_ground ground.entry) n) (map phase_move_of steps.now)) }
{
    let mut moves = Vec::new(alloc);
    for step in steps {
        moves.push(second_move(alloc, ground, first, payments, step)?)?;
    }
    Ok(moves)
}

// The second functions as a table.
fn second_table(
    alloc: Global,
    ground: Ground,
    node: &PhasesNode,
    first: &PotentialTable,
    payments: &[Payment],
) -> Result<PotentialTable, Memory>
    requires first { table_of first.now ≡ table_of_first (phases_node_of node.now) }
    requires payments { map payment_of payments.now ≡ map payment_of_1 (phases_node_of node.now).counted }
    ensures { IfOk result (λ t. table_of t ≡ table_of_second (plain_ground ground.entry) (phases_node_of node.now)) }
{
    let functions = copied_functions(alloc, &node.seconds)?;
    let moves = second_moves(alloc, ground, first, payments, &node.moves)?;
    Ok(PotentialTable {
        functions,
        den: node.den,
        moves,
    })
}
