//! Where the term at hand was entered.

/// Where the term at hand was entered, and how far it has come since. Its items so far are kept elsewhere.
#[derive(Clone, Copy, Debug, PartialEq, Eq)]
pub enum TermEntry {
    Outside,
    /// An array: so many items are left, the next with this loop variable.
    Items { left: u64, item: i64 },
    /// A repetition: its next item begins at `at`, its interval ends at `to`.
    Turns { at: u32, to: u32 },
}
