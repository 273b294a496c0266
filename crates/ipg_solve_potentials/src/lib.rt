//! Levels for the nodes of a graph along whose edges they must fall, or a short circle of edges that falls.
#![tactic(auto)]

mod difference;
mod level;
mod settling;
mod trail;

pub use difference::Difference;
pub use settling::{Potentials, settle};
