//! Trees of many inputs by one grammar, as rows.
#![tactic(auto)]

mod answering;
mod format;
mod given;
mod listing;

pub use answering::Answer;
pub use format::{Format, format_of};
pub use listing::names;
