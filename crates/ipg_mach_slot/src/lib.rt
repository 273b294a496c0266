//! What slots of an open call come to, on the rows of the tables and of stored results.
#![tactic(auto)]

mod expr;
mod found;
mod now;
mod symbols;

pub use expr::{PartSite, is_zero, pick, slot, turn, value};
pub use found::Found;
pub use now::{Done, Now, Running};
pub use symbols::interval;
