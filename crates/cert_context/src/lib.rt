//! The context in which nodes of derivations are checked: a program with the rows of its rules, the facts of a node's
//! premises, each stored once and looked up by key, and ranking functions column by column.
//!
//! Builds on `cert_types`, `its_graph`, `guard_prep` and `gap_checks`. Main guarantee: a `Lookup` gives what
//! `cert_types::Known` requires, for the table of the facts that the premises state, joined in order; and the prepared
//! rows of a rule are those of the program's setting in `cert_program`.
#![tactic(auto)]

mod columns;
mod context;
mod costs;
mod joining;
mod lookup;
mod multipliers;
mod needed;
mod refusal;
mod stated_facts;
mod stating;

pub use columns::{Column, coefficient, number, product};
pub use context::{CheckContext, check_context, prepared_cost_rule, prepared_rule};
pub use joining::lookup_of;
pub use lookup::Lookup;
pub use multipliers::{are_multipliers, are_within, are_within_limit, is_within};
pub use needed::{first_missing, first_untimed, has_time};
pub use refusal::NodeFault;
pub use stated_facts::{PremiseFacts, StatedFacts, facts_at, facts_in};
pub use stating::{bound_at, one, start_facts, zero_sizes, zero_time};
