//! The printed tree: a line for each visit of a walk, written without memory.
#![tactic(auto)]

mod json;
mod leaf;
mod line;
pub mod names;
mod parts;
mod printing;
mod tail;
#[cfg(test)]
mod tests;
mod words;

pub use json::print_json;
pub use parts::{print_part, print_value};
pub use printing::{lines, print};
pub use tail::Tail;
