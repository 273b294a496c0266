//! That to words something is said: laws.
#![tactic(auto)]

pub mod laws;
