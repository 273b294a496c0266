//! Flat tables compiled from a checked grammar.
#![tactic(auto)]

mod answers;
mod draft;
mod emit;
mod in_hand;
pub mod laws;
mod look;
pub mod results;
pub mod row;
pub mod tables;
mod value;
