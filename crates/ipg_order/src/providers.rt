//! What each term of an alternative needs: its providers, as lists.

ghost use Rattle.std.specs.Prelude.{◌≡◌, ◌≤◌, ◌<◌, ◌++◌, length, flat_map, IfOk, OnOk};
ghost use Rattle.ipg_order.specs.Providers as spec;

use crate::callees::callees_in;
use crate::closure::ROW;
use crate::locals::setter;
use crate::named::{Named, named_in};
use ipg_core::grammar::CoreTerm;
use ipg_num::{List, item_at};
use std::alloc::{AllocError, Global};

/// The holder of each rule, and what each local one waits for.
#[derive(Clone, Copy)]
pub(crate) struct Local<'a> {
    pub holders: &'a [Option<(u32, u32)>],
    pub flags: &'a [bool],
}

/// A term, by its number among those of its alternative.
#[derive(Clone, Copy)]
struct Of<'a> {
    at: (u32, u32),
    terms: &'a [CoreTerm],
    number: u32,
}

/// The providers of each term of the alternative at a place.
pub(crate) fn needs(
    alloc: Global,
    local: Local<'_>,
    at: (u32, u32),
    terms: &[CoreTerm],
) -> Result<Vec<List<u32>>, AllocError>
    requires { length terms.now ≤ 256 }
    ensures { IfOk result (λ needs. needs.items ≡ spec.all_needs local.entry.holders.now local.entry.flags.now at terms.now 0 terms.now) }
{
    let mut needs = Vec::with_capacity(alloc, terms.len())?;
    for (number, term) in terms.iter().enumerate() {
        let of = Of {
            at,
            terms,
            number: number as u32,
        };
        needs.push(List::from_vec(term_needs(alloc, local, of, term)?))?;
    }
    Ok(needs)
}

fn term_needs(
    alloc: Global,
    local: Local<'_>,
    of: Of<'_>,
    term: &CoreTerm,
) -> Result<Vec<u32>, AllocError>
    requires { length of.terms.now ≤ 256 }
    ensures { IfOk result (λ needs. needs.items ≡ spec.term_needs local.entry.holders.now local.entry.flags.now of.entry.at of.entry.terms.now
        of.entry.number term.now) }
{
    let names = named_in(alloc, term)?;
    let mut needs = Vec::new(alloc);
    add_names(&mut needs, of, names.as_slice())?;
    add_syms(alloc, &mut needs, local, of, term)?;
    Ok(needs)
}

fn add_names(needs: &mut Vec<u32>, of: Of<'_>, names: &[Named]) -> Result<(), AllocError>
    requires { length of.terms.now ≤ 256 }
    ensures { OnOk result (needs.new.items ≡ needs.old.items ++ flat_map (spec.name_needs of.entry.terms.now of.entry.number) names.now) }
{
    for name in names {
        add_name(needs, of, *name)?;
    }
    Ok(())
}

fn add_name(needs: &mut Vec<u32>, of: Of<'_>, name: Named) -> Result<(), AllocError>
    requires { length of.terms.now ≤ 256 }
    ensures { OnOk result (needs.new.items ≡ needs.old.items ++ spec.name_needs of.entry.terms.now of.entry.number name) }
{
    match name {
        Named::Term(term) => add(needs, of.number, term),
        Named::Own(attr) => match setter(of.terms, attr) {
            Some(term) => add(needs, of.number, term),
            None => Ok(()),
        },
        Named::Outer(_) => Ok(()),
    }
}

/// A term needs another one, and never itself.
fn add(needs: &mut Vec<u32>, number: u32, other: u32) -> Result<(), AllocError>
    ensures { OnOk result (needs.new.items ≡ needs.old.items ++ spec.other number other) }
{
    if number == other {
        return Ok(());
    }
    needs.push(other)?;
    Ok(())
}

fn add_syms(
    alloc: Global,
    needs: &mut Vec<u32>,
    local: Local<'_>,
    of: Of<'_>,
    term: &CoreTerm,
) -> Result<(), AllocError>
    requires { length of.terms.now ≤ 256 }
    ensures { OnOk result (needs.new.items ≡ needs.old.items ++ spec.syms_needs local.entry.holders.now local.entry.flags.now of.entry.at
        of.entry.terms.now of.entry.number term.now) }
{
    let callees = callees_in(alloc, term)?;
    add_callees(needs, local, of, callees.as_slice())
}

fn add_callees(
    needs: &mut Vec<u32>,
    local: Local<'_>,
    of: Of<'_>,
    callees: &[u32],
) -> Result<(), AllocError>
    requires { length of.terms.now ≤ 256 }
    ensures { OnOk result (needs.new.items ≡ needs.old.items ++ flat_map (spec.callee_needs local.entry.holders.now local.entry.flags.now of.entry.at
        (length of.entry.terms.now) of.entry.number) callees.now) }
{
    for callee in callees {
        add_callee(needs, local, of, *callee)?;
    }
    Ok(())
}

/// A call of a local rule of this alternative needs what that rule waits for.
fn add_callee(
    needs: &mut Vec<u32>,
    local: Local<'_>,
    of: Of<'_>,
    callee: u32,
) -> Result<(), AllocError>
    requires { length of.terms.now ≤ 256 }
    ensures { OnOk result (needs.new.items ≡ needs.old.items ++ spec.callee_needs local.entry.holders.now local.entry.flags.now of.entry.at
        (length of.entry.terms.now) of.entry.number callee) }
{
    if !is_here(local.holders, of.at, callee) {
        return Ok(());
    }
    add_row(needs, local.flags, callee, of.number, of.terms.len())
}

fn is_here(holders: &[Option<(u32, u32)>], at: (u32, u32), rule: u32) -> bool
    ensures { result ≡ spec.is_here holders.now at rule }
{
    match item_at(holders, rule as usize) {
        Some(Some(holder)) => holder.0 == at.0 && holder.1 == at.1,
        Some(None) => false,
        None => false,
    }
}

fn add_row(
    needs: &mut Vec<u32>,
    flags: &[bool],
    row: u32,
    number: u32,
    columns: usize,
) -> Result<(), AllocError>
    requires { columns ≤ 256 }
    ensures { OnOk result (needs.new.items ≡ needs.old.items ++ spec.row_needs flags.now row number columns) }
{
    for column in 0..columns {
        if is_set(flags, row as usize * ROW + column) {
            add(needs, number, column as u32)?;
        }
    }
    Ok(())
}

fn is_set(flags: &[bool], at: usize) -> bool
    ensures { result ≡ spec.is_set flags.now at }
{
    match item_at(flags, at) {
        Some(flag) => *flag,
        None => false,
    }
}
