//! Readers of bytes, each exact as to the first byte at fault.
#![tactic(auto)]

mod fault;
pub mod laws;
mod reader;

pub use fault::{Fault, Halt, whole};
pub use reader::Reader;
