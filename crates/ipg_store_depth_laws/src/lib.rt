//! How deep the expressions of a text's core grammar nest: laws.
#![tactic(auto)]

pub mod laws;
