//! The two editions of the conditions.

/// How much the conditions know.
#[derive(Clone, Copy)]
pub enum Edition {
    /// Nothing of the fields of items, of the bounds of arrays that have run, and of a holder's terms.
    Earlier,
    /// All that is said of a term.
    Later,
}
