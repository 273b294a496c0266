//! What is noted of a cycle of calls that may keep the whole part: the values that go with it, by their names in the text.
#![tactic(auto)]

pub mod laws;
mod names;
mod noted;
mod values;

pub use noted::notes;
