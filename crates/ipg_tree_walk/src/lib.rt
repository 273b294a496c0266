//! A parsed tree: what is asked of it, and a walk over it.
#![tactic(auto)]

mod bytes;
mod detached;
mod parsed;
mod stack;
#[cfg(test)]
mod tests;
mod walk;

pub use detached::Detached;
pub use parsed::{Counts, Ends, Parsed};
pub use walk::{Interval, Visit, interval_of};
