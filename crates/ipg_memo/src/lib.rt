//! The answers of calls already made, by rule and interval, seen as a finite map.
#![tactic(auto)]

mod chunk;
mod chunks;
mod index;
mod link;
mod memo;
mod places;
mod reached;

pub use memo::{Entry, Key, Memo};
