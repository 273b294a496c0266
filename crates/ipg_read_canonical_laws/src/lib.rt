//! The laws of canonical texts: a grammar's canonical text reads as that grammar.
#![tactic(auto)]

pub mod laws;
