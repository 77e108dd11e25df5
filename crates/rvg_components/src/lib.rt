//! The result-variable graph: its nodes are the places of live rules, and its edges the flow of values given by local
//! bounds. Its strongly connected components, in the order in which their sizes can be found.
//!
//! Builds on `its_graph` and `local_size`. Main guarantee: the components are exactly the strongly connected ones, each
//! after all those that it depends on.
#![tactic(auto)]

mod component;
mod flowing;
mod graph;
mod inside;
mod laws;
mod listing;
mod numbering;
mod reading;

pub use component::Component;
pub use laws::flows_are_as_worked_out;
pub use listing::components;
