//! Laws of the JSON text of a tree: what two trees of one text have in common.
#![tactic(auto)]

pub mod laws;
