//! What a path picks of a parsed tree.
#![tactic(auto)]

mod below;
mod deeper;
mod ends;
mod fields;
mod hit;
mod inside;
pub mod laws;
mod left;
mod names;
mod rows;
mod selecting;
mod spot;
mod steps;

pub use fields::field_named;
pub use hit::Hit;
pub use inside::{Deep, Walk, begin, levels_of, next};
pub use ipg_query_path::{Query, Step, read};
pub use selecting::{members, select};
pub use spot::Spot;
