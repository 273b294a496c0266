//! Whether a grammar leaves no byte of its input out: a refutation of each alternative's gap, or the first that may have one.
#![tactic(auto)]

mod answer;
mod covering;
pub mod laws;
mod least;
mod listing;
mod reach;

pub use answer::Cover;
pub use covering::cover;
