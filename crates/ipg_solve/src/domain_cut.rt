use crate::domain::Domain;

/// A side of a cut.
#[derive(Clone, Copy)]
pub enum CutSide {
    Below,
    Above,
}

/// A cut of a variable's domain: the variable is at most `at` below it, and more above it.
#[derive(Clone, Copy)]
pub struct DomainCut {
    pub var: usize,
    pub at: i64,
    /// The one that is at hand.
    pub side: CutSide,
    /// The domain that was cut.
    pub old: Domain,
}
