//! The limits on the size of a lemma.

ghost use Rattle.std.specs.Prelude.{◌≡◌, map};
ghost use Rattle.std.specs.List.{list_all};
ghost use Rattle.poly_terms.specs.Views.{monomial_of, monomials_of, poly_of};
ghost use Rattle.signed_bounds.specs.Views.{signed_of};
ghost use Rattle.potential_nodes.specs.Limits.{is_short as is_short_certificate, is_small as is_small_polynomial};
ghost use Rattle.potential_nodes.specs.Limits.{is_small_monomial as is_small_term, is_small_function as is_small_value};
ghost use Rattle.potential_nodes.specs.Limits.{is_small_move as is_small_step, is_small_table as is_small_potential};
ghost use Rattle.potential_nodes.specs.Limits.{is_small_payment as is_small_amount, is_small_charge as is_small_cost};
ghost use Rattle.potential_nodes.specs.Limits.{is_small_phase_move as is_small_phase_step};
ghost use Rattle.potential_nodes.specs.Limits.{is_small_counted as is_small_count};
ghost use Rattle.potential_nodes.specs.Limits.{is_small_combination as is_small_composition, is_small_node as is_small_kind};
ghost use Rattle.potential_nodes.specs.Limits.{is_within_limits as is_limited};
ghost use Rattle.potential_types.specs.Views.{summands_of, function_of, move_of, table_of, payment_of, charge_of};
ghost use Rattle.potential_types.specs.Views.{phase_move_of, counted_of, combination_of, node_of};

use crate::facts::Charge;
use crate::nodes::{Combination, CountedRule, Payment, PhaseMove, SignedLemma, SignedNode};
use crate::summand::Summand;
use crate::tables::{Move, PotentialTable, SymbolFunction};
use poly_terms::{Monomial, Poly};

const SUMMAND_LIMIT: usize = 1024;

const MONOMIAL_LIMIT: usize = 64;

const DEGREE_LIMIT: usize = 8;

/// Whether a lemma is within the limits: its polynomials have at most 64 monomials of at most 8 factors, its
/// certificates at most 1,024 summands, and the bound that it states is within the limits of bounds.
pub fn is_within_limits(lemma: &SignedLemma) -> bool
    ensures { result ≡ is_limited (node_of lemma.now.node) (signed_of lemma.now.bound) }
{
    is_small_node(&lemma.node) && !lemma.bound.exceeds_limits()
}

fn is_small_node(node: &SignedNode) -> bool
    ensures { result ≡ is_small_kind (node_of node.now) }
{
    match node {
        SignedNode::Fall(n) => is_small_table(&n.potential) && all_payments(&n.payments),
        SignedNode::Peak(n) => {
            is_small_table(&n.potential) && (is_small(&n.form) && is_short(&n.floor))
        }
        SignedNode::Row(n) => is_small(&n.form) && is_short(&n.certificate),
        SignedNode::Combined(n) => is_small_combination(n),
        SignedNode::Sized(n) => is_small(&n.form),
        SignedNode::InPhases(n) => {
            (all_functions(&n.firsts) && all_functions(&n.seconds))
                && (all_phase_moves(&n.moves) && all_counted(&n.counted))
        }
    }
}

fn is_short(certificate: &[Summand]) -> bool
    ensures { result ≡ is_short_certificate (summands_of certificate.now) }
{
    certificate.len() <= SUMMAND_LIMIT
}

fn is_small(p: &Poly) -> bool
    ensures { result ≡ is_small_polynomial (poly_of p.now) }
{
    p.terms.len() <= MONOMIAL_LIMIT && all_monomials(&p.terms)
}

fn all_monomials(monomials: &[Monomial]) -> bool
    ensures { result ≡ list_all is_small_term (monomials_of monomials.now) }
{
    for monomial in monomials {
        if monomial.vars.len() > DEGREE_LIMIT {
            return false;
        }
    }
    true
}

fn all_functions(functions: &[SymbolFunction]) -> bool
    ensures { result ≡ list_all is_small_value (map function_of functions.now) }
{
    for function in functions {
        if !is_small(&function.form) {
            return false;
        }
    }
    true
}

fn is_small_move(step: &Move) -> bool
    ensures { result ≡ is_small_step (move_of step.now) }
{
    is_small(&step.gain) && is_short(&step.certificate)
}

fn all_moves(moves: &[Move]) -> bool
    ensures { result ≡ list_all is_small_step (map move_of moves.now) }
{
    for step in moves {
        if !is_small_move(step) {
            return false;
        }
    }
    true
}

fn is_small_table(table: &PotentialTable) -> bool
    ensures { result ≡ is_small_potential (table_of table.now) }
{
    all_functions(&table.functions) && all_moves(&table.moves)
}

fn is_small_payment(payment: &Payment) -> bool
    ensures { result ≡ is_small_amount (payment_of payment.now) }
{
    is_small(&payment.amount) && (is_short(&payment.floor) && is_short(&payment.positive))
}

fn all_payments(payments: &[Payment]) -> bool
    ensures { result ≡ list_all is_small_amount (map payment_of payments.now) }
{
    for payment in payments {
        if !is_small_payment(payment) {
            return false;
        }
    }
    true
}

fn is_small_phase_move(step: &PhaseMove) -> bool
    ensures { result ≡ is_small_phase_step (phase_move_of step.now) }
{
    is_short(&step.first) && is_short(&step.second)
}

fn all_phase_moves(moves: &[PhaseMove]) -> bool
    ensures { result ≡ list_all is_small_phase_step (map phase_move_of moves.now) }
{
    for step in moves {
        if !is_small_phase_move(step) {
            return false;
        }
    }
    true
}

fn all_counted(counted: &[CountedRule]) -> bool
    ensures { result ≡ list_all is_small_count (map counted_of counted.now) }
{
    for rule in counted {
        if !is_short(&rule.floor) {
            return false;
        }
    }
    true
}

fn all_charges(charges: &[Charge]) -> bool
    ensures { result ≡ list_all is_small_cost (map charge_of charges.now) }
{
    for charge in charges {
        if !is_small(&charge.form) {
            return false;
        }
    }
    true
}

fn is_small_combination(node: &Combination) -> bool
    ensures { result ≡ is_small_composition (combination_of node.now) }
{
    match node {
        Combination::Times { form, .. } => is_small(form),
        Combination::Least(_, _) | Combination::Add(_, _) => true,
        Combination::Among(goal, _) => all_charges(goal),
    }
}
