//! Rows.

/// A row of a tree, as a program in C reads it. What a kind of row doesn't have is 0.
///
/// | `kind` | row | `of`, `name` | besides |
/// |---|---|---|---|
/// | 0 | a node | 0, its rule's number | `start`, `end`: where it begins and ends to touch bytes |
/// | 1 | an attribute of the node before it | 3, the attribute's number | `value`; no places |
/// | 2 | a terminal | 2, 0 | |
/// | 3 | a number | 1, its primitive's number | `high`, `low`: its halves; of fewer than 64 bits `high` is 0 |
/// | 4 | raw bytes | 1, 7 | |
/// | 5 | an array, its items behind it | 0 and a rule's number, or 1 and a primitive's | |
/// | 6 | a repetition, its items behind it | the same | |
///
/// Primitives are numbered U8, U16LE, U16BE, U32LE, U32BE, U64LE, U64BE, Bytes from 0 on. `from`, `to`, `start` and `end` are places of the
/// input, in bytes; an array and a repetition have the ends of the part that they lie in. `depth` is 0 for the root, and one more for what
/// lies in a row; an attribute has its node's.
#[repr(C)]
#[derive(Clone, Copy, Debug, PartialEq, Eq)]
pub struct TreeRow {
    pub kind: u32,
    pub of: u32,
    pub name: u32,
    pub high: u32,
    pub low: u32,
    pub depth: u64,
    pub from: u64,
    pub to: u64,
    pub start: u64,
    pub end: u64,
    pub value: i64,
}
