//! A session of edits: the answer after each, from what is still known.
#![tactic(auto)]

mod session;

pub use session::{Answer, EditFault, Session};
