//! What the counts of an open evaluation come to.
#![tactic(auto)]

pub mod laws;
