//! The open evaluation: what a grammar means, found move by move.
#![tactic(auto)]

pub mod laws;
