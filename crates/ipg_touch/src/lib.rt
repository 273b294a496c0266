//! Which rules must touch a byte, and which repetitions may not.
#![tactic(auto)]

pub mod laws;
pub mod marks;
pub mod repetitions;

pub use marks::must_touch;
pub use repetitions::loose;
