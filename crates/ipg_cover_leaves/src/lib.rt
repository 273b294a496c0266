//! The leaves of a parsed tree, and the bytes that they put back.
#![tactic(auto)]

mod back;
mod collecting;
mod fault;
pub mod laws;
mod leaf;
mod number;
mod page;

pub use back::put_back;
pub use collecting::leaves;
pub use fault::PutFault;
pub use leaf::Leaf;
