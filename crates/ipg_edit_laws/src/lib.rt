//! Laws of edits: which bytes they leave, and which trees stand behind them too.
#![tactic(auto)]

pub mod laws;
