//! The body of a table file: a core grammar as bytes.
#![tactic(auto)]

mod body;
pub mod laws;
mod reading;
mod tag;
mod writing;

pub use body::Body;
pub use reading::read;
pub use writing::write;
