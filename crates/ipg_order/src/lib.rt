//! The order in which the terms of each alternative run.
#![tactic(auto)]

mod arranging;
mod callees;
mod closure;
mod fault;
pub mod laws;
mod locals;
mod named;
mod ordered;
mod ordering;
mod providers;
mod waits;

pub use fault::OrderFault;
pub use ordered::order;
