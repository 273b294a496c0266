//! Commands on the tree of an input: what is written of it, by a path, and through edits.
#![tactic(auto)]

pub mod answering;
pub mod due;
pub mod editing;
pub mod laws;
pub mod measuring;
pub mod parse;
pub mod path;
pub mod querying;
pub mod script;
pub mod show;
pub mod telling;
pub mod writing;
