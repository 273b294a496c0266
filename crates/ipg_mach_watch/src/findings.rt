//! What is found of an evaluation.

use ipg_mach_failures::{Call, Story};
use std::alloc::Allocator;

/// What an evaluation came to.
#[derive(Clone, Copy)]
pub enum End {
    Tree,
    NoTree,
    /// A value left 64 bits, in the term at hand of this call.
    Range(Call),
}

/// What an evaluation came to, whatever that is, and its furthest failures: those at the greatest place of the input, in the
/// order in which they were met, each once, eight at most, and how often others were met there.
#[derive(Drop)]
pub struct Findings<A: Allocator> {
    pub end: End,
    pub told: Vec<Story, A>,
    pub more: u64,
}
