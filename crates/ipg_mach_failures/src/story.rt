//! A term that failed, with what it read and the calls that were open.

ghost use Rattle.std.specs.Prelude.{◌≡◌, ◌≤◌, [], length};
ghost use Rattle.ipg_mach_failures.specs.Chain.{shown, story};

use crate::failure::Failure;
use crate::values::Values;
use std::marker::Model;

/// How many calls are shown at most.
const MOST: usize = 12;

/// How many of them are the first, where calls are left out.
const FIRST: usize = 4;

/// How many of them are the last, where calls are left out.
const LAST: usize = 8;

/// A call that is open: a rule at an alternative on an interval of the input, and the number of its term at hand.
#[derive(Clone, Copy, Debug, PartialEq, Eq)]
pub struct Call {
    pub rule: u32,
    pub alt: u32,
    pub term: u32,
    pub from: u32,
    pub to: u32,
}

/// No call, where a place for one is needed.
const NO_CALL: Call = Call {
    rule: 0,
    alt: 0,
    term: 0,
    from: 0,
    to: 0,
};

/// Calls, twelve at most.
#[derive(Drop)]
pub struct Calls {
    rows: [Call; MOST],
    count: usize,
}

impl Model for Calls {
    ghost use Rattle.std.specs.Prelude.{◌≤◌, List, take};
    ghost use Rattle.ipg_mach_failures.specs.declared.story.Call.{Call as CallRow};

    ghost Value = { List CallRow };

    ghost view = { λ c. take c.count c.rows };

    ghost invariant = { λ c. c.count ≤ 12 };
}

impl Calls {
    /// Those that are shown of open calls: all where they are at most twelve, else the first four and the last eight.
    pub fn of(calls: &[Call]) -> Calls
        ensures { result ≡ shown calls.now }
    {
        let mut rows = [NO_CALL; MOST];
        let count = calls.len();
        if count <= MOST {
            rows[..count].copy_from_slice(calls);
            return Calls { rows, count };
        }
        rows[..FIRST].copy_from_slice(&calls[..FIRST]);
        rows[FIRST..].copy_from_slice(&calls[count - LAST..]);
        Calls { rows, count: MOST }
    }

    /// The calls, from the first rule on.
    pub fn as_slice(&self) -> &[Call]
        ensures { result.now ≡ self.now }
    {
        &self.rows[..self.count]
    }
}

/// A failure, the names that its expressions read with their values, and the calls that were open below its own when it was
/// met, from the first rule on: all where they are at most twelve, else the first four and the last eight, and how many between
/// these are left out.
#[derive(Drop)]
pub struct Story {
    pub failure: Failure,
    pub values: Values,
    pub calls: Calls,
    pub left_out: u64,
}

impl Story {
    /// A failure with values, and with what is shown of the calls that are open below its own.
    pub fn of(failure: Failure, values: Values, calls: &[Call]) -> Story
        ensures { result ≡ story calls.now values failure }
    {
        Story {
            failure,
            values,
            calls: Calls::of(calls),
            left_out: calls.len().saturating_sub(MOST) as u64,
        }
    }
}
