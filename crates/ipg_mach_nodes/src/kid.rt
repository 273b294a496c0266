//! The rows that trees are made of.

use ipg_core::grammar::Primitive;
use ipg_region::RunId;

/// A child. Places are those of its parent's part; `sym` is the number of a symbol.
#[derive(Clone, Copy, Debug, PartialEq, Eq)]
pub enum Kid {
    Node {
        id: RunId,
        from: u32,
        to: u32,
    },
    /// A terminal.
    Text {
        sym: u32,
        from: u32,
        to: u32,
    },
    /// A number: both halves of one of 64 bits, else 0 and the value.
    Number {
        prim: Primitive,
        from: u32,
        to: u32,
        high: u32,
        low: u32,
    },
    /// Raw bytes.
    Raw {
        from: u32,
        to: u32,
    },
    Array {
        sym: u32,
        items: RunId,
    },
    /// A repetition.
    Many {
        sym: u32,
        items: RunId,
    },
}

/// What a node is but for its attributes and children: its rule, the length of its part, and where it begins and ends to
/// touch bytes of that.
#[derive(Clone, Copy, Debug, PartialEq, Eq)]
pub struct Head {
    pub rule: u32,
    pub size: u32,
    pub start: u32,
    pub end: u32,
}

/// A node, with the places of its attributes and of its children. At most `levels` lists of children and of items lie
/// within one another in it.
#[derive(Clone, Copy, Debug, PartialEq, Eq)]
pub struct Node {
    pub head: Head,
    pub levels: u32,
    pub attrs: RunId,
    pub kids: RunId,
}
