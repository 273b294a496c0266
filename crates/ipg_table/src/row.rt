//! The rows that tables are made of.

use ipg_core::grammar::{CoreField, Sym};
use ipg_num::Op2;

/// Rows of a table that stand side by side: the place of the first, and how many there are.
#[derive(Clone, Copy, Debug, Default, PartialEq, Eq)]
pub struct RowSpan {
    pub from: u32,
    pub count: u32,
}

/// A row of an expression in postfix form. A row takes its operands off a stack and puts its value there; `skip` rows
/// behind it are passed over where what they compute isn't needed.
#[derive(Debug, Drop)]
pub enum Op {
    Num(i64),
    /// The loop variable.
    Loop,
    /// The length of the part at hand.
    Eoi,
    Own(u32),
    Outer(u32),
    Seen {
        term: u32,
        sym: Sym,
        field: CoreField,
    },
    /// Takes the index.
    Item {
        term: u32,
        field: CoreField,
    },
    /// The greatest end of the items that touch; where none does, the rows of what stands in its place come next.
    After {
        term: u32,
        skip: u32,
    },
    Neg,
    Not,
    Two(Op2),
    /// Takes the left side; where that is 0, the value is 0 and the right side is passed over.
    Both {
        skip: u32,
    },
    /// Takes the left side; where that isn't 0, the value is 1 and the right side is passed over.
    Either {
        skip: u32,
    },
    /// Behind the right side of `Both` and `Either`: takes it, and gives 0 or 1.
    Truth,
    /// Takes the condition; where that is 0, the first choice is passed over.
    Cond {
        skip: u32,
    },
    /// Behind the first choice: passes the second one over.
    Else {
        skip: u32,
    },
    /// Behind the second choice, and behind what stands in the place of an end: does nothing.
    Close,
}

/// A symbol by its number, on an interval.
#[derive(Clone, Copy, Debug, Default, PartialEq, Eq)]
pub struct SlotRow {
    pub sym: u32,
    pub from: RowSpan,
    pub to: RowSpan,
}

/// A branch of a switch.
#[derive(Clone, Copy, Debug, Default, PartialEq, Eq)]
pub struct CaseRow {
    pub cond: RowSpan,
    pub slot: SlotRow,
}

/// What a term does.
#[derive(Clone, Copy, Debug, PartialEq, Eq)]
pub enum Action {
    Slot(SlotRow),
    Set {
        attr: u32,
        value: RowSpan,
    },
    Test(RowSpan),
    Repeat {
        first: RowSpan,
        last: RowSpan,
        item: SlotRow,
    },
    Many(SlotRow),
    Pick {
        cases: RowSpan,
        other: SlotRow,
    },
}

impl Default for Action {
    fn default() -> Action {
        Action::Test(RowSpan::default())
    }
}

/// An instruction: the number of its term, and what it does.
#[derive(Clone, Copy, Debug, Default, PartialEq, Eq)]
pub struct Instr {
    pub term: u32,
    pub action: Action,
}

/// An alternative: its instructions in the order in which they run, the attributes that it sets in text order, and how
/// many terms it has.
#[derive(Clone, Copy, Debug, Default, PartialEq, Eq)]
pub struct AltRow {
    pub instrs: RowSpan,
    pub sets: RowSpan,
    pub terms: u32,
}

/// A rule: its name, its holder by rule and alternative if it is local, and its alternatives.
#[derive(Clone, Copy, Debug, PartialEq, Eq)]
pub struct RuleRow {
    pub name: RowSpan,
    pub holder: Option<(u32, u32)>,
    pub alts: RowSpan,
}
