//! Which terms of a holder matter to what a local rule's alternative mentions.
#![tactic(auto)]

mod calling;
mod holder;
mod marks;
mod mention;
mod outers;

pub use holder::{kept, mentions_holder};
pub use marks::is_marked;
