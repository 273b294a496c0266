//! What the expressions of a term that failed read.

ghost use Rattle.std.specs.Prelude.{◌≡◌, []};
ghost use Rattle.ipg_mach_failures.specs.Values as spec;

use ipg_core::grammar::{CoreField, Primitive};
use std::marker::Model;

/// How many values are kept at most.
const FEW: usize = 8;

/// What a slot or a switch took whose result is read: a string, a primitive, or the rule of that number.
#[derive(Clone, Copy, Debug, PartialEq, Eq)]
pub enum Taken {
    Text,
    Prim(Primitive),
    Rule(u32),
}

/// A name that an expression reads.
#[derive(Clone, Copy, Debug, PartialEq, Eq)]
pub enum Operand {
    /// The length of the part at hand.
    Eoi,
    /// An attribute of the alternative itself.
    Own(u32),
    /// An attribute of the holder.
    Outer(u32),
    /// The loop variable.
    Loop,
    /// A field of the result of a slot or of a switch that took this; of a switch behind which an interval begins, a string.
    Seen {
        term: u32,
        taken: Taken,
        field: CoreField,
    },
}

/// A name that was read, and its value where it had one.
#[derive(Clone, Copy, Debug, PartialEq, Eq)]
pub struct Valued {
    pub operand: Operand,
    pub value: Option<i64>,
}

/// No value, where a place for one is needed.
const NO_VALUE: Valued = Valued {
    operand: Operand::Eoi,
    value: None,
};

/// Names with their values, eight at most.
#[derive(Drop)]
pub struct Values {
    rows: [Valued; FEW],
    count: usize,
}

impl Model for Values {
    ghost use Rattle.std.specs.Prelude.{◌≤◌, List, take};
    ghost use Rattle.ipg_mach_failures.specs.declared.values.Valued.{Valued as Row};

    ghost Value = { List Row };

    ghost view = { λ v. take v.count v.rows };

    ghost invariant = { λ v. v.count ≤ 8 };
}

fn same_taken(a: Taken, b: Taken) -> bool
    ensures { result ≡ spec.same_taken a b }
{
    match (a, b) {
        (Taken::Text, Taken::Text) => true,
        (Taken::Prim(a), Taken::Prim(b)) => a as u8 == b as u8,
        (Taken::Rule(a), Taken::Rule(b)) => a == b,
        _ => false,
    }
}

fn same_field(a: CoreField, b: CoreField) -> bool
    ensures { result ≡ spec.same_field a b }
{
    match (a, b) {
        (CoreField::Attr(a), CoreField::Attr(b)) => a == b,
        (CoreField::Start, CoreField::Start) => true,
        (CoreField::End, CoreField::End) => true,
        _ => false,
    }
}

/// Whether a name is a field of this result.
fn is_seen(of: Operand, at: u32, by: Taken, read: CoreField) -> bool
    ensures { result ≡ spec.same_operand (spec.seen_by at by read) of }
{
    match of {
        Operand::Seen { term, taken, field } => {
            at == term && same_taken(by, taken) && same_field(read, field)
        }
        _ => false,
    }
}

/// Whether two names are one.
fn same_operand(a: Operand, b: Operand) -> bool
    ensures { result ≡ spec.same_operand a b }
{
    match (a, b) {
        (Operand::Eoi, Operand::Eoi) => true,
        (Operand::Own(a), Operand::Own(b)) => a == b,
        (Operand::Outer(a), Operand::Outer(b)) => a == b,
        (Operand::Loop, Operand::Loop) => true,
        (Operand::Seen { term, taken, field }, other) => is_seen(other, term, taken, field),
        _ => false,
    }
}

/// Whether this is a value of the name.
fn is_value_of(one: &Valued, operand: Operand) -> bool
    ensures { result ≡ spec.same_operand one.now.operand operand }
{
    same_operand(one.operand, operand)
}

/// Whether a name is among those that were read.
fn is_among(values: &[Valued], operand: Operand) -> bool
    ensures { result ≡ spec.is_among values.now operand }
{
    for one in values {
        if is_value_of(one, operand) {
            return true;
        }
    }
    false
}

impl Values {
    /// None was read.
    pub fn new() -> Values
        ensures { result ≡ [] }
    {
        Values {
            rows: [NO_VALUE; FEW],
            count: 0,
        }
    }

    /// The names with their values, in the order in which they were read first.
    pub fn as_slice(&self) -> &[Valued]
        ensures { result.now ≡ self.now }
    {
        &self.rows[..self.count]
    }

    /// One more that was read: it is kept unless its name is there, or eight are.
    pub fn add(&mut self, one: Valued)
        ensures { self.new ≡ spec.with_value self.old one }
    {
        if is_among(self.as_slice(), one.operand) || self.count >= FEW {
            return;
        }
        self.rows[self.count] = one;
        self.count += 1;
    }
}
