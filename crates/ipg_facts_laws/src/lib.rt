//! Laws of the conditions of edges: what solves them, and which grammars are total by them.
#![tactic(auto)]

pub mod ending;
pub mod laws;
