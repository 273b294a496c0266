use ipg_num::List;

/// A step of a refutation.
#[derive(Drop)]
pub enum Step {
    /// A sum of facts, each with its weight and its number, that reads `k <= 0` for a `k` above 0.
    Combine(List<(u64, u64)>),
    /// The case that a variable is at most `at`, and then the case that it is above.
    Split { var: u64, at: i64 },
    /// A case for each of the `parts` members of the Any that is fact number `fact`.
    Either { fact: u64, parts: u64 },
}

/// A tree of steps, kept in prefix order.
#[derive(Drop)]
pub struct Refutation {
    pub steps: List<Step>,
}
