//! Commands on a grammar: whether parsing by it ends, its certificate and table, its gaps, and what is told for a person.
#![tactic(auto)]

pub mod checks;
pub mod covering;
pub mod explaining;
pub mod following;
pub mod formatting;
pub mod helping;
pub mod loading;
pub mod looping;
pub mod verifying;
