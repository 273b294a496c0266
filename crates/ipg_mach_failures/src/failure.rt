//! What is told of a term that failed by itself.

/// Why a term, or its next item, has no result of its own.
#[derive(Clone, Copy, Debug, PartialEq, Eq)]
pub enum Cause {
    /// The bytes of the interval don't begin with the terminal. So many of its bytes agree.
    Differs { agreed: u64 },
    /// So many bytes are left for the number, which takes more.
    CutShort { left: u64 },
    /// These two values are no ends of an interval of the part.
    NoInterval { from: i64, to: i64 },
    /// The test is 0.
    IsZero,
    /// An expression has no value.
    NoValue,
}

/// Why a term fails, at which branch of a switch (else 0), and at which place of its call's part; None where the cause has no
/// place of its own.
#[derive(Clone, Copy, Debug, PartialEq, Eq)]
pub struct Miss {
    pub branch: u64,
    pub cause: Cause,
    pub place: Option<u64>,
}

/// A term that failed by itself: the open call, by its rule and alternative and by its interval of the input; the term by
/// its number in the text, the branch of a switch (else 0), and the item of an array or a repetition; why, and where in the
/// input.
#[derive(Clone, Copy, Debug, PartialEq, Eq)]
pub struct Failure {
    pub rule: u32,
    pub alt: u32,
    pub from: u32,
    pub to: u32,
    pub term: u32,
    pub branch: u64,
    pub item: Option<u64>,
    pub cause: Cause,
    pub place: u64,
}
