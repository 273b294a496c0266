//! Which edges of a graph lie on a cycle.
#![tactic(auto)]

mod chain;
mod cyclic;
mod finished;
mod labels;
mod links;
mod parts;

pub use cyclic::edges_on_cycles;
