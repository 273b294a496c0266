//! The names of a grammar, resolved.
#![tactic(auto)]

mod fault;
mod faults;
mod heads;
pub mod laws;
mod named;
mod resolved;
mod resolving;
mod rules;
mod whole;

pub use fault::NameFault;
pub use named::{NamedAlt, NamedPlace, NamedRule, NamedSlot, NamedTerm};
pub use resolving::resolve;
pub use whole::NamedGrammar;
