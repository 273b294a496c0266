//! What a tree has of the input: its terminals, numbers and raw bytes.
ghost use Rattle.std.specs.Prelude.{◌≡◌, ℕ, ◌+◌, ◌≤◌, List, Some, length, MatchBool};
ghost use Rattle.ipg_cover_leaves.specs.Bytes.{leaf_bytes, place_of};
ghost use Rattle.ipg_cover_leaves.specs.Back.{HasBytes, IsInside};

use crate::number::{halves_of, width_of};
use ipg_core::grammar::{Name, Primitive};

/// A terminal, a number or raw bytes, from a place of the input on. A number of 64 bits is in two halves of 32 bits, any
/// other has 0 as its upper half.
#[derive(Debug, Drop)]
pub enum Leaf {
    Text {
        from: u32,
        bytes: Name,
    },
    Number {
        prim: Primitive,
        from: u32,
        high: i64,
        low: i64,
    },
    Raw {
        from: u32,
        bytes: Name,
    },
}

impl Leaf {
    /// Whether its number is one that its primitive can have.
    pub(crate) fn has_bytes(&self) -> bool
        ensures { MatchBool result (HasBytes self.now) (¬ HasBytes self.now) }
    {
        match self {
            Leaf::Text { .. } | Leaf::Raw { .. } => true,
            Leaf::Number {
                prim,
                high,
                low,
                ..
            } => halves_of(*prim, high, low).is_some(),
        }
    }

    /// The place of its first byte.
    pub(crate) fn from(&self) -> u32
        ensures { result ≡ place_of self.now }
    {
        match self {
            Leaf::Text { from, .. } => *from,
            Leaf::Number { from, .. } => *from,
            Leaf::Raw { from, .. } => *from,
        }
    }

    /// How many bytes it has.
    fn len(&self) -> u64
        ensures { (bytes : List ℕ) → leaf_bytes self.now ≡ Some bytes → result ≡ length bytes }
    {
        match self {
            Leaf::Text { bytes, .. } => bytes.len() as u64,
            Leaf::Number { prim, .. } => width_of(*prim),
            Leaf::Raw { bytes, .. } => bytes.len() as u64,
        }
    }

    /// Whether none of its bytes lies at or past a length.
    pub(crate) fn is_inside(&self, len: u32) -> bool
        requires { HasBytes self.now }
        ensures { MatchBool result (IsInside len self.now) (¬ IsInside len self.now) }
    {
        let count = self.len();
        count == 0 || u64::from(self.from()).saturating_add(count) <= u64::from(len)
    }
}
