use ipg_core::accepted::Core;
use ipg_graph::Edge;

/// A grammar, which of its rules must touch a byte, and its edges by number.
#[derive(Clone, Copy)]
pub struct CallGraph<'a> {
    pub grammar: &'a Core,
    pub marks: &'a [bool],
    pub edges: &'a [Edge],
}
