//! Missing intervals, term by term.

ghost use Rattle.std.specs.Prelude.{◌≡◌, ◌≤◌, ◌<◌, ◌^◌, ◌∷◌, [], ◌++◌, map, length, pos, IfOk, OnOk};
ghost use Rattle.std.specs.List.{AllByRecursion};
ghost use Rattle.ipg_num.specs.declared.op.Op2.TheVariants as op;
ghost use Rattle.ipg_core.specs.declared.grammar.CoreExpr.TheVariants as core;
ghost use Rattle.ipg_core.specs.declared.grammar.CoreTerm.TheVariants as term;
ghost use Rattle.ipg_complete.specs.Completion as spec;

use crate::left::Left;
use ipg_core::grammar::{CoreExpr, CoreSlot, CoreTerm, Primitive, Sym};
use ipg_names::{NamedPlace, NamedSlot, NamedTerm};
use ipg_num::{Held, List, Op2};
use std::alloc::{AllocError, Global};

fn sum(alloc: Global, a: CoreExpr, b: CoreExpr) -> Result<CoreExpr, AllocError>
    ensures { IfOk result (λ made. made ≡ core.Two op.Add a b) }
{
    Ok(CoreExpr::Two(Op2::Add, Held::new(alloc, a)?, Held::new(alloc, b)?))
}

fn so_many(alloc: Global, left: &Left, count: usize) -> Result<CoreExpr, AllocError>
    requires { count < 2 ^ 63 }
    ensures { IfOk result (λ made. made ≡ spec.so_many left.now count) }
{
    sum(alloc, left.expr(alloc)?, CoreExpr::Num(count as i64))
}

fn number_end(alloc: Global, left: &Left, prim: Primitive) -> Result<CoreExpr, AllocError>
    ensures { IfOk result (λ made. made ≡ spec.number_end left.now prim) }
{
    match prim {
        Primitive::Bytes => Ok(CoreExpr::Eoi),
        _ => so_many(alloc, left, prim.width() as usize),
    }
}

/// The right end of a slot or a branch that has no interval.
fn open_end(alloc: Global, left: &Left, sym: &Sym) -> Result<CoreExpr, AllocError>
    ensures { IfOk result (λ made. made ≡ spec.open_end left.now sym.now) }
{
    match sym {
        Sym::Text(bytes) => so_many(alloc, left, bytes.as_slice().len()),
        Sym::Prim(prim) => number_end(alloc, left, *prim),
        Sym::Rule(_) => Ok(CoreExpr::Eoi),
    }
}

fn slot(alloc: Global, left: &Left, slot: NamedSlot) -> Result<CoreSlot, AllocError>
    ensures { IfOk result (λ made. made ≡ spec.slot_of left.now slot) }
{
    let NamedSlot { sym, place } = slot;
    match place {
        NamedPlace::Open => {
            let to = open_end(alloc, left, &sym)?;
            Ok(CoreSlot {
                sym,
                from: left.expr(alloc)?,
                to,
            })
        }
        NamedPlace::Length(length) => Ok(CoreSlot {
            sym,
            from: left.expr(alloc)?,
            to: sum(alloc, left.expr(alloc)?, length)?,
        }),
        NamedPlace::Ends(from, to) => Ok(CoreSlot { sym, from, to }),
    }
}

fn many(alloc: Global, left: &Left, item: Sym, place: NamedPlace) -> Result<CoreTerm, AllocError>
    ensures { IfOk result (λ made. made ≡ term.Many item (spec.from_of left.now place) (spec.to_of left.now core.Eoi place)) }
{
    match place {
        NamedPlace::Open => Ok(CoreTerm::Many {
            item,
            from: left.expr(alloc)?,
            to: CoreExpr::Eoi,
        }),
        NamedPlace::Length(length) => Ok(CoreTerm::Many {
            item,
            from: left.expr(alloc)?,
            to: sum(alloc, left.expr(alloc)?, length)?,
        }),
        NamedPlace::Ends(from, to) => Ok(CoreTerm::Many { item, from, to }),
    }
}

fn cases(
    alloc: Global,
    left: &Left,
    cases: List<(CoreExpr, NamedSlot)>,
) -> Result<List<(CoreExpr, CoreSlot)>, AllocError>
    ensures { IfOk result (λ made. made ≡ map (spec.case_of left.now) cases) }
{
    let mut made = Vec::with_capacity(alloc, cases.len())?;
    for pair in cases.into_vec() {
        made.push((pair.0, slot(alloc, left, pair.1)?))?;
    }
    Ok(List::from_vec(made))
}

fn term(alloc: Global, left: &Left, term: NamedTerm) -> Result<CoreTerm, AllocError>
    ensures { IfOk result (λ made. made ≡ spec.term_of left.now term) }
{
    match term {
        NamedTerm::Slot(written) => Ok(CoreTerm::Slot(slot(alloc, left, written)?)),
        NamedTerm::Set { attr, value } => Ok(CoreTerm::Set { attr, value }),
        NamedTerm::Test(cond) => Ok(CoreTerm::Test(cond)),
        NamedTerm::Repeat {
            first,
            last,
            item,
            from,
            to,
        } => Ok(CoreTerm::Repeat {
            first,
            last,
            item,
            from,
            to,
        }),
        NamedTerm::Many { item, place } => many(alloc, left, item, place),
        NamedTerm::Pick {
            cases: written,
            other,
        } => Ok(CoreTerm::Pick {
            cases: cases(alloc, left, written)?,
            other: slot(alloc, left, other)?,
        }),
    }
}

/// Puts a term behind those so far, and goes on behind it.
fn add_term(
    alloc: Global,
    made: &mut Vec<CoreTerm>,
    left: &mut Left,
    written: NamedTerm,
) -> Result<(), AllocError>
    requires { length made.old.items < 2 ^ 32 }
    ensures { OnOk result ((made.new.items ≡ made.old.items ++ spec.term_of left.old written ∷ [])
        × (left.new ≡ spec.behind (length made.old.items) left.old (spec.term_of left.old written))) }
{
    let number = made.len() as u32;
    let next = term(alloc, left, written)?;
    left.pass(alloc, number, &next)?;
    made.push(next)?;
    Ok(())
}

/// The terms of an alternative, each with its intervals.
pub(crate) fn terms(alloc: Global, terms: List<NamedTerm>) -> Result<List<CoreTerm>, AllocError>
    requires { length terms < 2 ^ 32 }
    ensures { IfOk result (λ made. made ≡ spec.terms_from 0 spec.left_at_first terms) }
{
    let mut made = Vec::with_capacity(alloc, terms.len())?;
    let mut left = Left::first(alloc);
    for written in terms.into_vec() {
        add_term(alloc, &mut made, &mut left, written)?;
    }
    Ok(List::from_vec(made))
}
