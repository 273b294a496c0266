//! What variables stand for.

ghost use Rattle.std.specs.Prelude.{◌≡◌, IfOk};
ghost use Rattle.ipg_core.specs.Grammar.{name_at};
ghost use Rattle.ipg_facts_variables.specs.Variable as spec;

use crate::expr::copied;
use crate::shared::{Shared, Sole};
use ipg_core::grammar::{CoreExpr, CoreField, Name};
use ipg_num::item_at;
use std::alloc::{AllocError, Global};

/// Whose part or alternative it is.
#[derive(Clone, Copy)]
pub enum Side {
    /// The edge's caller's.
    Caller,
    /// The caller's holder's.
    Holder,
    /// That of a place that is missed.
    Point,
}

/// What a variable stands for.
#[derive(Drop)]
pub enum Quantity {
    /// The length of the side's part.
    Whole,
    /// An attribute that the side's alternative sets.
    Attribute(u32),
    /// The loop variable.
    Loop,
    /// The start of a term's result.
    Start(u32),
    /// The end of a term's result.
    End(u32),
    /// An attribute of a term's result, by its name.
    Named(u32, Shared<u8>),
    /// The value of an expression.
    Value(Sole<CoreExpr>),
}

/// A variable. It stands once for all of its copies.
#[derive(Drop)]
pub struct Variable {
    pub side: Side,
    pub of: Quantity,
}

/// The length of the side's part.
pub fn whole(side: Side) -> Variable
    ensures { result ≡ spec.whole side }
{
    Variable {
        side,
        of: Quantity::Whole,
    }
}

/// An attribute that the side's alternative sets.
pub fn attribute(side: Side, attr: u32) -> Variable
    ensures { result ≡ spec.attribute side attr }
{
    Variable {
        side,
        of: Quantity::Attribute(attr),
    }
}

/// The loop variable.
pub fn loop_variable(side: Side) -> Variable
    ensures { result ≡ spec.loop side }
{
    Variable {
        side,
        of: Quantity::Loop,
    }
}

pub fn start(side: Side, term: u32) -> Variable
    ensures { result ≡ spec.start side term }
{
    Variable {
        side,
        of: Quantity::Start(term),
    }
}

pub fn end(side: Side, term: u32) -> Variable
    ensures { result ≡ spec.end side term }
{
    Variable {
        side,
        of: Quantity::End(term),
    }
}

/// An attribute of a result, by its name.
pub fn named(alloc: Global, side: Side, term: u32, name: &[u8]) -> Result<Variable, AllocError>
    ensures { IfOk result (λ variable. variable ≡ spec.named side term name.now) }
{
    let name = Shared::from_vec(alloc, Vec::from_slice(alloc, name)?)?;
    Ok(Variable {
        side,
        of: Quantity::Named(term, name),
    })
}

/// The value of an expression, of which it holds a copy.
pub fn value(alloc: Global, side: Side, e: &CoreExpr) -> Result<Variable, AllocError>
    ensures { IfOk result (λ variable. variable ≡ spec.value side e.now) }
{
    let sole = Sole::new(alloc, copied(alloc, e)?)?;
    Ok(Variable {
        side,
        of: Quantity::Value(sole),
    })
}

/// The name of an attribute, which is empty where there is none.
pub fn name_of<'a>(names: &'a [Name], attr: u32) -> &'a [u8]
    ensures { result.now ≡ name_at names.now attr }
{
    match item_at(names, attr as usize) {
        Some(name) => name.as_slice(),
        None => b"".as_slice(),
    }
}

/// A field of a result.
pub fn field(
    alloc: Global,
    names: &[Name],
    side: Side,
    term: u32,
    of: CoreField,
) -> Result<Variable, AllocError>
    ensures { IfOk result (λ variable. variable ≡ spec.field names.now side term of) }
{
    match of {
        CoreField::Attr(attr) => named(alloc, side, term, name_of(names, attr)),
        CoreField::Start => Ok(start(side, term)),
        CoreField::End => Ok(end(side, term)),
    }
}

fn copy_quantity(of: &Quantity) -> Result<Quantity, AllocError>
    ensures { IfOk result (λ copy. copy ≡ of.now) }
{
    match of {
        Quantity::Whole => Ok(Quantity::Whole),
        Quantity::Attribute(attr) => Ok(Quantity::Attribute(*attr)),
        Quantity::Loop => Ok(Quantity::Loop),
        Quantity::Start(term) => Ok(Quantity::Start(*term)),
        Quantity::End(term) => Ok(Quantity::End(*term)),
        Quantity::Named(term, name) => Ok(Quantity::Named(*term, name.copy()?)),
        Quantity::Value(e) => Ok(Quantity::Value(e.copy()?)),
    }
}

impl Variable {
    /// A copy, which takes no memory.
    pub fn copy(&self) -> Result<Variable, AllocError>
        ensures { IfOk result (λ copy. copy ≡ self.now) }
    {
        Ok(Variable {
            side: self.side,
            of: copy_quantity(&self.of)?,
        })
    }
}
