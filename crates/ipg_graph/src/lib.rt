//! Every simple cycle of a graph, once, in lexicographic order of its edges.
#![tactic(auto)]

mod chain;
mod cycles;
mod edge;
mod links;
mod reach;
mod search;

pub use cycles::{Cycles, runs_are_whole};
pub use edge::{Edge, are_inside};
