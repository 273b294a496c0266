//! What the term at hand makes of its call.

use crate::entry::TermEntry;
use ipg_mach_nodes::Kid;
use ipg_mach_slot::Done;

/// What the term at hand makes of its call; `sym` is the number of a symbol.
#[derive(Clone, Copy, Debug, PartialEq, Eq)]
pub enum Advance {
    /// It is past, and an attribute has its value.
    Value { attr: u32, value: i64 },
    /// It is past, and has no result.
    Passed,
    /// It is past with its result.
    Result(Done),
    /// It is past: the items so far are its array.
    Array { sym: u32 },
    /// It is past: the items so far and this one are its array.
    Last { sym: u32, item: Kid },
    /// It is past: the items so far are its repetition.
    Many { sym: u32 },
    /// It goes on inside.
    Inside(TermEntry),
    /// It has one item more, and goes on inside.
    Item { item: Kid, entry: TermEntry },
    /// The alternative has no tree.
    NoTree,
    /// A value leaves 64 bits.
    Range,
}

/// What is found at the term at hand.
#[derive(Clone, Copy, Debug, PartialEq, Eq)]
pub enum AtHand {
    Makes(Advance),
    /// A call that is to be made first: of a rule, on an interval of the part.
    Calls { rule: u32, from: u32, to: u32 },
}
