//! Whether parsing by a grammar ends: a certificate that it does, or the first cycle of calls that may keep the whole part.
#![tactic(auto)]

mod checking;
mod cycles;
mod dead;
mod fault;
pub mod laws;

pub use checking::check;
pub use fault::{TermFault, TermWhy};
