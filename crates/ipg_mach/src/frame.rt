//! Frames of open calls.

use crate::piles::Bases;
use ipg_mach_nodes::{Mark, RunId};
use ipg_mach_term::TermEntry;
use ipg_table::row::Instr;

/// Where the attributes of a call's holder stand in the pile of attributes.
#[derive(Clone, Copy, Debug, PartialEq, Eq)]
pub struct Outer {
    pub from: u32,
    pub to: u32,
}

/// An open call: its rule and the number of its alternative, its interval of the input, the instructions left of the
/// alternative, and where what it comes to begins. What else follows from the alternative is looked up: a row less here is a
/// row less for each call that waits.
#[derive(Clone, Copy)]
pub struct Frame<'m> {
    pub rule: u32,
    pub alt: u32,
    pub from: u32,
    pub to: u32,
    pub left: &'m [Instr],
    pub entry: TermEntry,
    pub outer: Outer,
    pub base: Bases,
    /// The end of the store when the call was made.
    pub mark: Mark,
}

/// The answer that a call holds.
#[derive(Clone, Copy, Debug, PartialEq, Eq)]
pub enum HeldAnswer {
    Node(RunId),
    NoTree,
    Range,
}

/// A call that is to be made: of a rule, on an interval of the input, with its holder's attributes.
#[derive(Clone, Copy, Debug, PartialEq, Eq)]
pub struct NewCall {
    pub rule: u32,
    pub from: u32,
    pub to: u32,
    pub outer: Outer,
}
