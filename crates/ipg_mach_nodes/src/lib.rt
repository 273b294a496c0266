//! Trees in regions of memory: nodes, children and attributes, each read by its place.
#![tactic(auto)]

mod kid;
pub mod laws;
mod store;

pub use ipg_region::RunId;
pub use kid::{Head, Kid, Node};
pub use store::{Mark, Store};
