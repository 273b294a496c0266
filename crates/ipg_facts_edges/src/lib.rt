//! The calls of a grammar, as the edges of a graph of its rules.
#![tactic(auto)]

mod listing;

pub use ipg_graph::{Cycles, Edge, are_inside};
pub use listing::edges;
