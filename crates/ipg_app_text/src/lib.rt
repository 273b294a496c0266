//! What the program says, and the core grammar of a text.
#![tactic(auto)]

pub mod core_of;
pub mod early;
pub mod grammar;
pub mod input;
pub mod reasons;
pub mod refusal;
pub mod room;
pub mod said;
pub mod status;
pub mod text;
