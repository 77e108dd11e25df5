//! Copies of parts of programs, in memory of their own: names, symbols, expressions, atoms and rules. A copy has the
//! same plain data as the original, and the only error is that an allocation failed.
#![tactic(auto)]

mod exprs;
mod names;
mod rules;

pub use exprs::{copied_cost, copied_expr, copied_exprs};
pub use names::{copied_name, copied_names, copied_symbol, copied_symbols};
pub use rules::{copied_atom, copied_atoms, copied_rule};
