//! The furthest failures of an evaluation: where the input stopped being what the grammar wants, and the calls that were open.
#![tactic(auto)]

mod failure;
pub mod laws;
mod story;
mod values;

pub use failure::{Cause, Failure, Miss};
pub use story::{Call, Calls, Story};
pub use values::{Operand, Taken, Valued, Values};
