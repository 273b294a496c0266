//! What the term at hand of an open call makes of it: one move, decided on rows, of which nothing is stored yet.
#![tactic(auto)]

mod advance;
mod enter;
mod entry;
mod hand;
pub mod laws;
mod parsed;

pub use advance::{Advance, AtHand};
pub use entry::TermEntry;
pub use hand::at_hand;
pub use parsed::taken;
