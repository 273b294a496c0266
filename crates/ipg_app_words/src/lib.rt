//! What the words of the command line ask for, as `clap` reads them.
#![tactic(auto)]

mod asking;
mod commands;
mod matching;
mod requesting;
mod settings;

pub use asking::{Asked, Memo, Wanted};
pub use requesting::request;
