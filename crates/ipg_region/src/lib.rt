//! A region of memory seen as a list of runs of items, each read by its place in the list; cells, of an item each; a stack of items.
#![tactic(auto)]

mod block;
mod blocks;
mod cells;
mod chunk;
mod region;
mod stack;

pub use cells::Cells;
pub use region::{Region, RunId};
pub use stack::Stack;
