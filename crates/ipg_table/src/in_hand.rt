//! The value of an expression, computed with no more than one number in hand, where its rows need no stack.

ghost use Rattle.std.specs.Prelude.{◌≡◌, ◌≤◌, ◌<◌, ℕ, [], ◌∷◌, length, pos, Option, Some, None, IfSome};
ghost use Rattle.std.specs.Option.{option_map};
ghost use Rattle.ipg_num.specs.Number.{limited, apply_of};
ghost use Rattle.ipg_core.specs.Eval as spec;
ghost use Rattle.ipg_core.specs.Eval.{on_value};
ghost use Rattle.ipg_core.specs.Environment.{Environment};
ghost use Rattle.ipg_table.specs.declared.row.Op.TheVariants as ops;
ghost use Rattle.ipg_table.specs.Running.{Next, put, put_end, run};
ghost use Rattle.ipg_table.specs.Hand.{LeadOn, LeadsOn, handed};
ghost use Rattle.ipg_table.specs.Stack.{Puts};

use crate::answers::{found, number, truth, whole};
use crate::look::past;
use crate::results::Results;
use crate::row::Op;
use ipg_num::{Answer, Op2, apply, negate};

/// The number in hand behind a row, if there is one, and how many rows behind it are passed over.
#[derive(Clone, Copy)]
pub(crate) struct Holding {
    number: Option<i64>,
    skip: u32,
}

/// The number that a row is.
#[inline(always)]
fn literal(op: &Op) -> Option<i64>
    ensures { (env : Environment) (room : ℕ) → IfSome result (Puts env room op.now) }
{
    match op {
        Op::Num(value) => number(Answer::Val(*value)),
        _ => None,
    }
}

/// The number that a row puts on the stack where it is a number or the loop variable.
#[inline(always)]
fn plain<R: Results>(op: &Op, results: &R) -> Option<i64>
    ensures { (env : Environment) (room : ℕ) → R.stands results.now env → IfSome result (Puts env room op.now) }
{
    match op {
        Op::Loop => number(found(results.item())),
        _ => literal(op),
    }
}

/// The number that a row puts on the stack where it takes nothing off it, if it puts one.
#[inline(always)]
fn single<R: Results>(op: &Op, results: &R) -> Option<i64>
    ensures { (env : Environment) (room : ℕ) → R.stands results.now env → IfSome result (Puts env room op.now) }
{
    match op {
        Op::Eoi => number(whole(results.eoi())),
        Op::Own(attr) => number(found(results.own(*attr))),
        Op::Outer(attr) => number(found(results.outer(*attr))),
        Op::Seen { term, sym, field } => number(found(results.seen(*term, sym, *field))),
        _ => plain(op, results),
    }
}

/// What an operator makes of two numbers, where that is a number: a sum or a difference at once.
#[inline(always)]
fn applied(op: Op2, a: i64, b: i64) -> Option<i64>
    ensures { IfSome result (λ z. on_value (apply_of op a b) limited ≡ Answer.Val z) }
{
    if op == Op2::Add {
        a.checked_add(b)
    } else if op == Op2::Sub {
        a.checked_sub(b)
    } else {
        number(apply(op, a, b))
    }
}

/// The number that a plain row computes on its own, where there is room for it: no stack is needed then.
#[inline(always)]
pub(crate) fn lone<R: Results>(ops: &[Op], results: &R, room: usize) -> Option<i64>
    ensures { (env : Environment) → R.stands results.now env → IfSome result (λ z. run env room 0 ops.now [] ≡ Answer.Val z) }
{
    if ops.len() != 1 {
        return None;
    }
    if room == 0 {
        return None;
    }
    plain(&ops[0], results)
}

/// The number that a plain row, a number and their operator compute, where there is room for both.
#[inline(always)]
pub(crate) fn pair<R: Results>(ops: &[Op], results: &R, room: usize) -> Option<i64>
    ensures { (env : Environment) → R.stands results.now env → IfSome result (λ z. run env room 0 ops.now [] ≡ Answer.Val z) }
{
    if ops.len() != 3 {
        return None;
    }
    if room < 2 {
        return None;
    }
    match &ops[2] {
        Op::Two(op) => {
            let a = plain(&ops[0], results)?;
            let b = literal(&ops[1])?;
            applied(*op, a, b)
        }
        _ => None,
    }
}

/// The number that a single row computes, where it takes nothing off the stack.
#[inline(always)]
pub(crate) fn alone<R: Results>(ops: &[Op], results: &R) -> Option<i64>
    ensures { (env : Environment) (room : ℕ) → R.stands results.now env → 1 ≤ room → IfSome result (λ z. run env room 0 ops.now [] ≡ Answer.Val z) }
{
    if ops.len() == 1 {
        single(&ops[0], results)
    } else {
        None
    }
}

fn is_zero(a: i64) -> bool
    ensures { result ≡ spec.is_zero a }
{
    a == 0
}

/// An answer taken in hand, where it is a number.
#[inline(always)]
fn taken(answer: Answer, skip: u32) -> Option<Holding>
    ensures { (room : ℕ) → 1 ≤ room → IfSome result (λ h. (next : Next) → put room answer skip [] next ≡ next h.skip (handed h.number)) }
{
    match number(answer) {
        Some(number) => Some(held(number, skip)),
        None => None,
    }
}

/// This number in hand.
#[inline(always)]
fn held(number: i64, skip: u32) -> Holding
    ensures number { result.number ≡ Some number }
    ensures skip { result.skip ≡ skip }
{
    Holding {
        number: Some(number),
        skip,
    }
}

/// Nothing in hand.
#[inline(always)]
fn empty(skip: u32) -> Holding
    ensures number { result.number ≡ None }
    ensures skip { result.skip ≡ skip }
{
    Holding { number: None, skip }
}

/// An end that is there is taken in hand.
#[inline(always)]
fn end_or_none(end: Option<i64>, skip: u32) -> Option<Holding>
    ensures { (room : ℕ) (place : Option ℕ) → 1 ≤ room → end ≡ option_map pos place
        → IfSome result (λ h. (next : Next) → put_end room place skip [] next ≡ next h.skip (handed h.number)) }
{
    match end {
        Some(_) => taken(found(end), skip),
        None => Some(empty(0)),
    }
}

/// What a row leads to from an empty hand.
#[inline(always)]
fn first<R: Results>(op: &Op, results: &R) -> Option<Holding>
    ensures { (env : Environment) (room : ℕ) → R.stands results.now env → 1 ≤ room → IfSome result (LeadsOn env room op.now []) }
{
    match op {
        Op::After { term, skip } => end_or_none(results.greatest_end(*term), *skip),
        _ => match single(op, results) {
            Some(number) => Some(held(number, 0)),
            None => None,
        },
    }
}

/// Where the left side is 0, the value is 0, and the right side is passed over.
#[inline(always)]
fn both(a: i64, skip: u32) -> Option<Holding>
    ensures { (env : Environment) (room : ℕ) → 1 ≤ room → IfSome result (LeadsOn env room (ops.Both skip) (a ∷ [])) }
{
    if is_zero(a) {
        taken(truth(false), skip)
    } else {
        Some(empty(0))
    }
}

/// Where the left side isn't 0, the value is 1, and the right side is passed over.
#[inline(always)]
fn either(a: i64, skip: u32) -> Option<Holding>
    ensures { (env : Environment) (room : ℕ) → 1 ≤ room → IfSome result (LeadsOn env room (ops.Either skip) (a ∷ [])) }
{
    if is_zero(a) {
        Some(empty(0))
    } else {
        taken(truth(true), skip)
    }
}

/// Where the condition is 0, the first choice is passed over.
#[inline(always)]
fn choice(a: i64, skip: u32) -> Holding
    ensures { (env : Environment) (room : ℕ) → LeadsOn env room (ops.Cond skip) (a ∷ []) result }
{
    if is_zero(a) { empty(skip) } else { empty(0) }
}

/// What a row leads to that takes the number in hand and no other.
#[inline(always)]
fn with<R: Results>(op: &Op, a: i64, results: &R) -> Option<Holding>
    ensures { (env : Environment) (room : ℕ) → R.stands results.now env → 1 ≤ room → IfSome result (LeadsOn env room op.now (a ∷ [])) }
{
    match op {
        Op::Item { term, field } => taken(found(results.item_field(*term, a, *field)), 0),
        Op::Neg => taken(negate(a), 0),
        Op::Not => taken(truth(is_zero(a)), 0),
        Op::Truth => taken(truth(!is_zero(a)), 0),
        Op::Both { skip } => both(a, *skip),
        Op::Either { skip } => either(a, *skip),
        Op::Cond { skip } => Some(choice(a, *skip)),
        Op::Else { skip } => Some(held(a, *skip)),
        Op::Close => Some(held(a, 0)),
        _ => None,
    }
}

/// What a row that takes nothing off the stack and the operator behind it lead to.
#[inline(always)]
fn joined<R: Results>(a: i64, rows: &[Op], results: &R) -> Option<Holding>
    ensures { (env : Environment) (room : ℕ) → R.stands results.now env → 2 ≤ room → IfSome result (LeadOn env room rows.now (a ∷ [])) }
{
    if rows.len() < 2 {
        return None;
    }
    match &rows[1] {
        Op::Two(op) => {
            let b = single(&rows[0], results)?;
            let value = applied(*op, a, b)?;
            Some(held(value, 1))
        }
        _ => None,
    }
}

/// What rows lead to with a number in hand.
#[inline(always)]
fn further<R: Results>(a: i64, rows: &[Op], results: &R) -> Option<Holding>
    requires { 0 < length rows.now }
    ensures { (env : Environment) (room : ℕ) → R.stands results.now env → 2 ≤ room → IfSome result (LeadOn env room rows.now (a ∷ [])) }
{
    match with(&rows[0], a, results) {
        Some(hand) => Some(hand),
        None => joined(a, rows, results),
    }
}

/// What rows lead to with this in hand.
#[inline(always)]
fn onward<R: Results>(number: Option<i64>, rows: &[Op], results: &R) -> Option<Holding>
    requires { 0 < length rows.now }
    ensures { (env : Environment) (room : ℕ) → R.stands results.now env → 2 ≤ room → IfSome result (LeadOn env room rows.now (handed number)) }
{
    match number {
        Some(a) => further(a, rows, results),
        None => first(&rows[0], results),
    }
}

/// The number that rows compute which need no more than one number in hand.
#[inline]
pub(crate) fn in_hand<R: Results>(ops: &[Op], results: &R) -> Option<i64>
    ensures { (env : Environment) (room : ℕ) → R.stands results.now env → 2 ≤ room → IfSome result (λ z. run env room 0 ops.now [] ≡ Answer.Val z) }
{
    let mut left = ops;
    let mut number = None;
    while !left.is_empty() {
        let hand = onward(number, left, results)?;
        number = hand.number;
        left = past(left, hand.skip as usize + 1);
    }
    number
}
