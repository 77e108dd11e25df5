//! Sections of a program as types, and the program that a section spells. Main guarantee: the plain data of the result
//! of `spell` is `spelled` of the plain data of the program and the section.
#![tactic(auto)]

mod affine;
mod ends;
mod law;
mod moving;
mod section;
mod spelling;

pub use affine::Affine;
pub use ends::{End, Goal, below_zero, fails, passes, push_ends};
pub use law::worked_values_hold;
pub use moving::moved;
pub use section::{Branch, Cases, Multipliers, Section, SymbolCopy};
pub use spelling::{arity_of, branch_ends, rule_along, rule_at, spell};
