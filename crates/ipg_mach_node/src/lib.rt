//! Results of terms as they grow, and the node of a call whose terms have all run.
#![tactic(auto)]

mod closing;
pub mod laws;
mod results;
mod scratch;
#[cfg(test)]
mod tests;

pub use closing::{Closing, close};
pub use results::{Several, past_items};
pub use scratch::Scratch;
