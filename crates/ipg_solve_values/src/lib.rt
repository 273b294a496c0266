//! Values of a variable in the solutions of a formula: the least one, and the one that it has in all.
#![tactic(auto)]

mod deciding;
mod halving;
pub mod laws;
mod narrowing;

pub use deciding::sure;
pub use halving::decide_least;
pub use narrowing::{narrowed, value_of};
