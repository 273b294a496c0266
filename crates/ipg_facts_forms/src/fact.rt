use ipg_facts_variables::{Shared, Variable};
use ipg_num::List;

/// An atom over variables: the sum of multiples of variables and a constant is at most 0.
#[derive(Drop)]
pub struct Draft {
    pub terms: List<(Variable, i64)>,
    pub constant: i64,
}

/// A formula over variables.
#[derive(Drop)]
pub enum Fact {
    Atom(Draft),
    All(List<Fact>),
    Any(List<Fact>),
}

/// A multiple of a variable, with the facts that are put where it is mentioned.
#[derive(Drop)]
pub struct Part {
    pub variable: Variable,
    pub facts: Shared<Fact>,
    pub factor: i128,
}

/// A linear form: its parts in the order of mention, also those that have cancelled.
#[derive(Drop)]
pub struct Form {
    pub parts: List<Part>,
    pub constant: i128,
}
