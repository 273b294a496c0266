//! Refutations of formulas over a box, and their checker.
#![tactic(auto)]

mod checking;
mod fact_ref;
mod gathering;
mod goal;
pub mod laws;
mod pos;
mod refutation;
mod sum;
mod text;
mod weigh;
mod words;

pub use checking::check;
pub use fact_ref::{Bound, FactRef};
pub use gathering::{add_formula, root_facts};
pub use refutation::{Refutation, Step};
pub use text::refutation_text;
pub use weigh::{MOST_ENTRIES, combines};
pub use words::{WordFault, refutation_read};
