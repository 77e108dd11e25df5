//! The functions of symbols and the moves of rules in a table, and the amounts of payments.

ghost use Rattle.std.specs.Prelude.{◌≡◌, map, option_map};
ghost use Rattle.poly_terms.specs.Views.{monomials_of};
ghost use Rattle.potential_nodes.specs.Lookup.{lookup, is_there};
ghost use Rattle.potential_nodes.specs.Tables.{symbol_of, rule_of, has_function as is_with_function};
ghost use Rattle.potential_nodes.specs.Tables.{form_at as polynomial_at};
ghost use Rattle.potential_nodes.specs.Falls.{payer};
ghost use Rattle.potential_types.specs.Views.{function_of, move_of, payment_of, table_of};
ghost use Rattle.check_potentials.specs.Amounts.{amount_of as polynomial_of};

use poly_terms::Monomial;
use potential_types::{Move, Payment, PotentialTable, SymbolFunction};

/// The function of a symbol, if there is one.
pub(crate) fn function_at(functions: &[SymbolFunction], symbol: u32) -> Option<&SymbolFunction>
    ensures { option_map (λ f. function_of f.now) result ≡ lookup symbol_of symbol (map function_of functions.now) }
{
    for function in functions {
        if function.symbol == symbol {
            return Some(function);
        }
    }
    None
}

/// Whether a symbol that may be there has a function.
pub(crate) fn has_function(table: &PotentialTable, symbol: Option<u32>) -> bool
    ensures { result ≡ is_with_function (table_of table.now) symbol }
{
    match symbol {
        Some(number) => function_at(&table.functions, number).is_some(),
        None => false,
    }
}

/// The monomials of the function of a symbol, and none if there is no function.
pub(crate) fn form_at(table: &PotentialTable, symbol: Option<u32>) -> &[Monomial]
    ensures { monomials_of result.now ≡ polynomial_at (table_of table.now) symbol }
{
    let Some(number) = symbol else {
        return &[];
    };
    match function_at(&table.functions, number) {
        Some(function) => &function.form.terms,
        None => &[],
    }
}

/// Whether a rule has a move.
pub(crate) fn has_own_move(moves: &[Move], rule: u32) -> bool
    ensures { result ≡ is_there (lookup rule_of rule (map move_of moves.now)) }
{
    for step in moves {
        if step.rule == rule {
            return true;
        }
    }
    false
}

// The payment of a rule, if there is one.
fn payment_at(payments: &[Payment], rule: u32) -> Option<&Payment>
    ensures { option_map (λ y. payment_of y.now) result ≡ lookup payer rule (map payment_of payments.now) }
{
    for payment in payments {
        if payment.rule == rule {
            return Some(payment);
        }
    }
    None
}

/// The monomials of the amount that payments have for a rule, and none if they have none.
pub(crate) fn amount_of(payments: &[Payment], rule: u32) -> &[Monomial]
    ensures { monomials_of result.now ≡ polynomial_of (map payment_of payments.now) rule }
{
    match payment_at(payments, rule) {
        Some(payment) => &payment.amount.terms,
        None => &[],
    }
}

/// Whether payments have an amount for a rule.
pub(crate) fn is_paid(payments: &[Payment], rule: u32) -> bool
    ensures { result ≡ is_there (lookup payer rule (map payment_of payments.now)) }
{
    payment_at(payments, rule).is_some()
}
