//! What a path asks for.

use ipg_num::List;

/// A name of the grammar language; reserved words are names here.
pub type Name = List<u8>;

/// What a step takes of each node that the steps before it came to.
#[derive(Debug, Drop)]
pub enum Step {
    /// The children of a symbol: `NAME`.
    Named(Name),
    /// One of these, counted from 0: `NAME(k)`.
    Nth(Name, u32),
    /// All children: `*`.
    Children,
    /// The node itself, and all that lies in it: `**`.
    All,
}

/// The steps of a path, and the field that is asked of what they come to.
#[derive(Debug, Drop)]
pub struct Query {
    pub steps: List<Step>,
    pub field: Option<Name>,
}
