//! How much memory conditions take, estimated before they are made.
#![tactic(auto)]

mod room;

pub use room::{ask_gap_room, ask_room};
