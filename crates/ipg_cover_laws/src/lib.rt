//! Laws of what the leaves of a tree cover of its input.
#![tactic(auto)]

pub mod laws;
