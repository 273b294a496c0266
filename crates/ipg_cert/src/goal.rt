use crate::fact_ref::Bound;
use ipg_lin::Formula;

/// What a case adds to the facts.
#[derive(Clone, Copy)]
pub enum Added<'a> {
    Case(Bound),
    Member(&'a Formula),
}

/// A case to refute: the first `kept` facts hold, and what it adds.
#[derive(Clone, Copy)]
pub struct Goal<'a> {
    pub kept: usize,
    pub added: Added<'a>,
}
