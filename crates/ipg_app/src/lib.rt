//! Answers the words of the command line, over any files and any output.
#![tactic(auto)]

pub mod laws;
mod reply;
pub mod run;
mod settle;
pub mod sure;
mod task;
mod trial;
