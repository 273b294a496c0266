//! What is wrong with a grammar, or with an input, for a person: the place, the line with a mark under it, and why.
#![tactic(auto)]

mod bytes;
mod calls;
mod failing;
mod furthest;
mod named;
mod spot;
mod terms;
mod values;
mod why;
mod words;

pub use furthest::{Ending, Subject, tell};
pub use named::{add_label, cut, loop_name, rule_name};
pub use terms::{TermAt, call_place, rule_at, term_place};
pub use why::{Source, Why, explain};
