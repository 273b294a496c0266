//! Missing intervals, written out.
#![tactic(auto)]

pub mod completed;
mod completing;
pub mod laws;
mod left;
mod whole;

pub use whole::complete;
