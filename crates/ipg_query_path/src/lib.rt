//! Paths over a tree, and how they are read.
#![tactic(auto)]

pub mod laws;
mod path;
mod pos;
mod reading;

pub use path::{Name, Query, Step};
pub use reading::read;
