//! What a slot comes to.

use ipg_mach_nodes::Kid;

/// What a slot comes to: a child, a call that must be made first, or the end of its alternative.
#[derive(Clone, Copy, Debug, PartialEq, Eq)]
pub enum Found {
    /// A child.
    Kid(Kid),
    /// A call that is to be made: of a rule, on an interval of the part.
    Call { rule: u32, from: u32, to: u32 },
    NoTree,
    /// A value leaves 64 bits.
    Range,
}
