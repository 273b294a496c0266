//! Core grammars and what they mean.
#![tactic(auto)]

pub mod accepted;
pub mod grammar;
pub mod laws;
