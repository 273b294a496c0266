//! What is picked.

/// A part of the input between two of its places, with its bytes; or the value of a field.
#[derive(Clone, Copy, Debug, Drop, PartialEq, Eq)]
pub enum Hit<'a> {
    Value(i64),
    Part { from: u32, to: u32, bytes: &'a [u8] },
}
