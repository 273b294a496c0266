//! A parsed tree as rows: one for each node, terminal, number, raw bytes, array and repetition, and one for each attribute.
#![tactic(auto)]

mod collecting;
mod naming;
mod row;
mod visited;

pub use collecting::add_rows;
pub use row::TreeRow;
