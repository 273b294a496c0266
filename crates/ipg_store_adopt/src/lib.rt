//! The good grammar that someone else wrote, if it is one.
#![tactic(auto)]

mod adopting;
mod attrs;
pub mod laws;
mod place;
mod slots;
mod whole;

pub use adopting::{AdoptFault, adopt};
pub use whole::is_well_formed;
