//! A parse that is watched: what it came to, and the furthest failures.
#![tactic(auto)]

mod findings;
mod furthest;
pub mod laws;
mod reach;
mod reads;
mod scenes;
mod symbols;
mod terms;
mod watched;
mod watching;

pub use findings::{End, Findings};
pub use ipg_mach_failures::{Call, Calls, Cause, Failure, Story};
pub use watching::watch;
