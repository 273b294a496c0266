//! The machine: the open evaluation of a grammar on rows, move by move.
#![tactic(auto)]

mod alternatives;
mod calls;
mod counted;
mod ended;
mod frame;
mod kept;
mod known;
mod machine;
mod parsing;
mod piles;
mod reader;
mod remembered;
mod scene;
mod top;
mod verdict;
mod work;

pub use ended::Ended;
pub use ipg_tree_walk::{Counts, Parsed};
pub use kept::Kept;
pub use machine::{Machine, Remember, Turn};
pub use parsing::{Outcome, parse};
pub use scene::Scene;
pub use verdict::Verdict;
