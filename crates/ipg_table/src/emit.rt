//! The rows of expressions.

ghost use Rattle.std.specs.Prelude.{◌≡◌, [], ◌∷◌, ◌++◌, ◌+◌, ◌<◌, length, IfOk, OnOk};
ghost use Rattle.ipg_table.specs.declared.row.Op.TheVariants.{Close};
ghost use Rattle.ipg_table.specs.Code.{code, code_step, depth, depth_step, parts};

use crate::row::Op;
use ipg_core::grammar::{CoreExpr, Name, Sym};
use ipg_num::List;
use std::alloc::{AllocError, Global};

/// Tables of 2^32 rows or more count as want of memory.
const TOO_MANY_ROWS: AllocError = AllocError;

/// A place or a number of rows, where it fits 32 bits: tables past that are want of memory.
pub(crate) fn number(count: usize) -> Result<u32, AllocError>
    ensures { IfOk result (λ n. n ≡ count) }
{
    match u32::try_from(count) {
        Ok(number) => Ok(number),
        Err(_) => Err(TOO_MANY_ROWS),
    }
}

fn deeper(depth: u32) -> Result<u32, AllocError>
    ensures { IfOk result (λ n. n ≡ depth + 1) }
{
    depth.checked_add(1).ok_or(TOO_MANY_ROWS)
}

fn name_of(alloc: Global, bytes: &[u8]) -> Result<Name, AllocError>
    ensures { IfOk result (λ name. name ≡ bytes.now) }
{
    Ok(List::from_vec(Vec::from_slice(alloc, bytes)?))
}

/// A copy of a symbol.
pub(crate) fn sym_of(alloc: Global, sym: &Sym) -> Result<Sym, AllocError>
    ensures { IfOk result (λ copied. copied ≡ sym.now) }
{
    match sym {
        Sym::Text(bytes) => Ok(Sym::Text(name_of(alloc, bytes.as_slice())?)),
        Sym::Prim(prim) => Ok(Sym::Prim(*prim)),
        Sym::Rule(rule) => Ok(Sym::Rule(*rule)),
    }
}

/// One more row.
fn put(ops: &mut Vec<Op>, op: Op) -> Result<(), AllocError>
    ensures { OnOk result (ops.new.items ≡ ops.old.items ++ op ∷ []) }
{
    ops.push(op)?;
    Ok(())
}

/// One more row, at the given depth.
fn at_depth(ops: &mut Vec<Op>, op: Op, depth: u32) -> Result<u32, AllocError>
    ensures ops { OnOk result (ops.new.items ≡ ops.old.items ++ op ∷ []) }
    ensures depth { IfOk result (λ d. d ≡ depth + 1) }
{
    ops.push(op)?;
    deeper(depth)
}

/// Room for a row that is written once the rows behind it are; gives its place.
fn gap(ops: &mut Vec<Op>) -> Result<usize, AllocError>
    ensures ops { OnOk result (ops.new.items ≡ ops.old.items ++ Close ∷ []) }
    ensures at { IfOk result (λ at. at ≡ length ops.old.items) }
{
    let at = ops.len();
    ops.push(Op::Close)?;
    Ok(at)
}

/// One more row; gives how many stand behind a place then.
fn close(ops: &mut Vec<Op>, at: usize, op: Op) -> Result<u32, AllocError>
    requires { at < length ops.now.items }
    ensures ops { OnOk result (ops.new.items ≡ ops.old.items ++ op ∷ []) }
    ensures behind { IfOk result (λ n. n + at ≡ length ops.old.items) }
{
    let behind = ops.len() - at;
    ops.push(op)?;
    number(behind)
}

/// Appends the rows of an expression; gives its depth.
#[cycle(emit)]
pub(crate) fn expr(alloc: Global, ops: &mut Vec<Op>, e: &CoreExpr) -> Result<u32, AllocError>
    ensures ops { OnOk result (ops.new.items ≡ ops.old.items ++ code e.now) }
    ensures depth { IfOk result (λ d. d ≡ depth e.now) }
{
    level(alloc, ops, e)
}

#[cycle(emit)]
fn level(alloc: Global, ops: &mut Vec<Op>, e: &CoreExpr) -> Result<u32, AllocError>
    ensures ops { OnOk result (ops.new.items ≡ ops.old.items ++ code_step (parts code e.now)) }
    ensures depth { IfOk result (λ d. d ≡ depth_step (parts depth e.now)) }
{
    match e {
        CoreExpr::Num(value) => at_depth(ops, Op::Num(*value), 0),
        CoreExpr::Eoi => at_depth(ops, Op::Eoi, 0),
        CoreExpr::Own(attr) => at_depth(ops, Op::Own(*attr), 0),
        CoreExpr::Outer(attr) => at_depth(ops, Op::Outer(*attr), 0),
        CoreExpr::Loop => at_depth(ops, Op::Loop, 0),
        CoreExpr::Seen { term, sym, field } => {
            let seen = Op::Seen {
                term: *term,
                sym: sym_of(alloc, sym)?,
                field: *field,
            };
            at_depth(ops, seen, 0)
        }
        CoreExpr::Item { term, index, field } => {
            let depth = expr(alloc, ops, index.get())?;
            let item = Op::Item {
                term: *term,
                field: *field,
            };
            at_depth(ops, item, depth)
        }
        CoreExpr::After { term, left } => {
            let at = gap(ops)?;
            let depth = expr(alloc, ops, left.get())?;
            let skip = close(ops, at, Op::Close)?;
            ops[at] = Op::After { term: *term, skip };
            deeper(depth)
        }
        CoreExpr::Neg(a) => {
            let depth = expr(alloc, ops, a.get())?;
            at_depth(ops, Op::Neg, depth)
        }
        CoreExpr::Not(a) => {
            let depth = expr(alloc, ops, a.get())?;
            at_depth(ops, Op::Not, depth)
        }
        CoreExpr::Two(op, a, b) => {
            let left = expr(alloc, ops, a.get())?;
            let right = expr(alloc, ops, b.get())?;
            at_depth(ops, Op::Two(*op), left.max(right))
        }
        CoreExpr::Both(a, b) => {
            let left = expr(alloc, ops, a.get())?;
            let at = gap(ops)?;
            let right = expr(alloc, ops, b.get())?;
            let skip = close(ops, at, Op::Truth)?;
            ops[at] = Op::Both { skip };
            deeper(left.max(right))
        }
        CoreExpr::Either(a, b) => {
            let left = expr(alloc, ops, a.get())?;
            let at = gap(ops)?;
            let right = expr(alloc, ops, b.get())?;
            let skip = close(ops, at, Op::Truth)?;
            ops[at] = Op::Either { skip };
            deeper(left.max(right))
        }
        CoreExpr::Cond(c, a, b) => {
            let tested = expr(alloc, ops, c.get())?;
            let first = gap(ops)?;
            let left = expr(alloc, ops, a.get())?;
            let second = ops.len();
            let skip = close(ops, first, Op::Close)?;
            ops[first] = Op::Cond { skip };
            let right = expr(alloc, ops, b.get())?;
            let skip = close(ops, second, Op::Close)?;
            ops[second] = Op::Else { skip };
            deeper(tested.max(left.max(right)))
        }
    }
}
