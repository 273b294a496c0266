//! Decides formulas over a box of whole numbers: by values that solve them, or by a refutation that checks.
#![tactic(auto)]

mod candidate;
mod closing;
mod counting;
mod decision;
mod difference;
mod domain;
mod domain_cut;
mod edges;
mod halving;
pub mod laws;
mod least;
mod levels;
#[cfg(test)]
mod small;
#[cfg(test)]
mod tests;
mod width;

pub use decision::{Decision, decide};
