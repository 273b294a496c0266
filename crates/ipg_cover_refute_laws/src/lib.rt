//! That what leaves no byte out can be shown to: laws.
#![tactic(auto)]

pub mod laws;
