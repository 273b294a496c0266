//! A search for values that make a formula hold in a box, or for a refutation. It promises nothing: who asks
//! tests what it finds.
#![tactic(auto)]

mod back;
mod case_facts;
mod choose;
mod gone;
mod packed;
mod parting;
mod patience;
mod search;
mod seeker;
mod settle;
mod steps;

pub use search::{SearchEnd, seek};
