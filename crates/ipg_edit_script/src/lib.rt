//! Scripts of edits, and how they are read.
#![tactic(auto)]

pub mod laws;
mod pos;
mod reading;
mod script;

pub use reading::read;
pub use script::Edit;
