//! The value of an expression, computed from its rows on a stack that is lent.

ghost use Rattle.std.specs.Prelude.{◌≡◌, ◌≤◌, ℕ, [], ◌∷◌, length, drop, not, true, false, nat_lt, pos, IfSome, MatchOption, if◌then◌else◌};
ghost use Rattle.ipg_num.specs.Number.{limited, flag, apply_of, negate_of};
ghost use Rattle.ipg_core.specs.Eval as spec;
ghost use Rattle.ipg_core.specs.Eval.{on_value};
ghost use Rattle.ipg_core.specs.Environment.{Environment};
ghost use Rattle.ipg_core.specs.Environment as envs;
ghost use Rattle.ipg_table.specs.Running.{computed, on_top, run};
ghost use Rattle.ipg_table.specs.Running as running;
ghost use Rattle.ipg_table.specs.Stack.{stacked, Turns, StackWithin, Puts};

use crate::answers::{found, kept, truth, whole};
use crate::in_hand::{alone, in_hand, lone, pair};
use crate::look::past;
use crate::results::Results;
use crate::row::Op;
use ipg_core::grammar::CoreField;
use ipg_num::{Answer, Op2, apply, negate};

/// What a row leads to: so many rows are passed over, and the stack is so high; or the answer is known.
#[derive(Clone, Copy)]
pub(crate) enum RowTurn {
    On { skip: u32, top: usize },
    End(Answer),
}

/// The number on top of a stack, and how high the stack is without it.
#[derive(Clone, Copy)]
struct Taken {
    value: i64,
    top: usize,
}

/// 1 for 0, else 0.
fn denied(a: Taken) -> Answer
    ensures { result ≡ flag (spec.is_zero a.value) }
{
    truth(a.value == 0)
}

/// 0 for 0, else 1.
fn asserted(a: Taken) -> Answer
    ensures { result ≡ flag (not (spec.is_zero a.value)) }
{
    truth(a.value != 0)
}

fn is_zero(a: Taken) -> bool
    ensures { result ≡ spec.is_zero a.value }
{
    a.value == 0
}

/// Takes the number on top.
fn take(area: &[i64], top: usize) -> Option<Taken>
    requires { top ≤ length area.now }
    ensures { MatchOption result (stacked area.now top ≡ []) (λ t. (stacked area.now top ≡ t.value ∷ stacked area.now t.top) × (t.top ≤ length area.now)) }
{
    if top == 0 {
        return None;
    }
    Some(Taken {
        value: area[top - 1],
        top: top - 1,
    })
}

/// Puts a number on the stack, where there is room.
fn place(area: &mut [i64], top: usize, value: i64, skip: u32) -> RowTurn
    requires { top ≤ length area.now }
    ensures turn { Turns result area.new (λ next. if nat_lt (length (stacked area.old top)) (length area.old)
        then next skip (value ∷ stacked area.old top) else Answer.Fail) }
    ensures within { StackWithin result area.new }
    ensures area { length area.new ≡ length area.old }
{
    if top < area.len() {
        area[top] = value;
        RowTurn::On { skip, top: top + 1 }
    } else {
        RowTurn::End(Answer::Fail)
    }
}

/// Puts a value on the stack, where it is one, and passes `skip` rows over.
fn put(area: &mut [i64], top: usize, answer: Answer, skip: u32) -> RowTurn
    requires { top ≤ length area.now }
    ensures turn { Turns result area.new (running.put (length area.old) answer skip (stacked area.old top)) }
    ensures within { StackWithin result area.new }
    ensures area { length area.new ≡ length area.old }
{
    match kept(answer) {
        Answer::Val(value) => place(area, top, value, skip),
        Answer::Fail => RowTurn::End(Answer::Fail),
        Answer::Range => RowTurn::End(Answer::Range),
    }
}

fn item<R: Results>(
    results: &R,
    area: &mut [i64],
    top: usize,
    term: u32,
    field: CoreField,
) -> RowTurn
    requires { top ≤ length area.now }
    ensures turn { (env : Environment) → R.stands results.now env
        → Turns result area.new (λ next. on_top (stacked area.old top)
        (λ i rest. running.put (length area.old)
        (spec.found (envs.field_of_item env.names field (spec.item_at (envs.items_so_far (envs.done_at env.done term)) i))) 0 rest next)) }
    ensures within { StackWithin result area.new }
    ensures area { length area.new ≡ length area.old }
{
    match take(area, top) {
        Some(i) => put(
            area,
            i.top,
            found(results.item_field(term, i.value, field)),
            0,
        ),
        None => RowTurn::End(Answer::Fail),
    }
}

fn end<R: Results>(results: &R, area: &mut [i64], top: usize, term: u32, skip: u32) -> RowTurn
    requires { top ≤ length area.now }
    ensures turn { (env : Environment) → R.stands results.now env
        → Turns result area.new (running.put_end (length area.old) (spec.greatest_end (envs.items_so_far (envs.done_at env.done term))) skip
        (stacked area.old top)) }
    ensures within { StackWithin result area.new }
    ensures area { length area.new ≡ length area.old }
{
    let end = results.greatest_end(term);
    match end {
        Some(_) => put(area, top, found(end), skip),
        None => RowTurn::On { skip: 0, top },
    }
}

fn neg(area: &mut [i64], top: usize) -> RowTurn
    requires { top ≤ length area.now }
    ensures turn { Turns result area.new (λ next. on_top (stacked area.old top) (λ x rest. running.put (length area.old) (negate_of x) 0 rest next)) }
    ensures within { StackWithin result area.new }
    ensures area { length area.new ≡ length area.old }
{
    match take(area, top) {
        Some(a) => put(area, a.top, negate(a.value), 0),
        None => RowTurn::End(Answer::Fail),
    }
}

fn inverse(area: &mut [i64], top: usize) -> RowTurn
    requires { top ≤ length area.now }
    ensures turn { Turns result area.new (λ next. on_top (stacked area.old top) (λ x rest. running.put (length area.old) (flag (spec.is_zero x)) 0 rest next)) }
    ensures within { StackWithin result area.new }
    ensures area { length area.new ≡ length area.old }
{
    match take(area, top) {
        Some(a) => put(area, a.top, denied(a), 0),
        None => RowTurn::End(Answer::Fail),
    }
}

fn two(area: &mut [i64], top: usize, op: Op2) -> RowTurn
    requires { top ≤ length area.now }
    ensures turn { Turns result area.new
        (λ next. on_top (stacked area.old top) (λ y rest. on_top rest (λ x rest. running.put (length area.old) (apply_of op x y) 0 rest next))) }
    ensures within { StackWithin result area.new }
    ensures area { length area.new ≡ length area.old }
{
    let Some(b) = take(area, top) else {
        return RowTurn::End(Answer::Fail);
    };
    match take(area, b.top) {
        Some(a) => put(area, a.top, apply(op, a.value, b.value), 0),
        None => RowTurn::End(Answer::Fail),
    }
}

fn both(area: &mut [i64], top: usize, skip: u32) -> RowTurn
    requires { top ≤ length area.now }
    ensures turn { Turns result area.new
        (λ next. on_top (stacked area.old top) (λ x rest. if spec.is_zero x then running.put (length area.old) (flag false) skip rest next
        else next 0 rest)) }
    ensures within { StackWithin result area.new }
    ensures area { length area.new ≡ length area.old }
{
    match take(area, top) {
        Some(a) => {
            if is_zero(a) {
                put(area, a.top, truth(false), skip)
            } else {
                RowTurn::On {
                    skip: 0,
                    top: a.top,
                }
            }
        }
        None => RowTurn::End(Answer::Fail),
    }
}

fn either(area: &mut [i64], top: usize, skip: u32) -> RowTurn
    requires { top ≤ length area.now }
    ensures turn { Turns result area.new
        (λ next. on_top (stacked area.old top) (λ x rest. if spec.is_zero x then next 0 rest else running.put (length area.old) (flag true) skip rest
        next)) }
    ensures within { StackWithin result area.new }
    ensures area { length area.new ≡ length area.old }
{
    match take(area, top) {
        Some(a) => {
            if is_zero(a) {
                RowTurn::On {
                    skip: 0,
                    top: a.top,
                }
            } else {
                put(area, a.top, truth(true), skip)
            }
        }
        None => RowTurn::End(Answer::Fail),
    }
}

fn as_truth(area: &mut [i64], top: usize) -> RowTurn
    requires { top ≤ length area.now }
    ensures turn { Turns result area.new
        (λ next. on_top (stacked area.old top) (λ y rest. running.put (length area.old) (flag (not (spec.is_zero y))) 0 rest next)) }
    ensures within { StackWithin result area.new }
    ensures area { length area.new ≡ length area.old }
{
    match take(area, top) {
        Some(a) => put(area, a.top, asserted(a), 0),
        None => RowTurn::End(Answer::Fail),
    }
}

fn cond(area: &mut [i64], top: usize, skip: u32) -> RowTurn
    requires { top ≤ length area.now }
    ensures turn { Turns result area.new (λ next. on_top (stacked area.old top) (λ x rest. if spec.is_zero x then next skip rest else next 0 rest)) }
    ensures within { StackWithin result area.new }
    ensures area { length area.new ≡ length area.old }
{
    match take(area, top) {
        Some(a) => {
            if is_zero(a) {
                RowTurn::On { skip, top: a.top }
            } else {
                RowTurn::On {
                    skip: 0,
                    top: a.top,
                }
            }
        }
        None => RowTurn::End(Answer::Fail),
    }
}

/// One row.
fn step<R: Results>(op: &Op, results: &R, area: &mut [i64], top: usize) -> RowTurn
    requires { top ≤ length area.now }
    ensures turn { (env : Environment) → R.stands results.now env → Turns result area.new (computed env (length area.old) op.now (stacked area.old top)) }
    ensures within { StackWithin result area.new }
    ensures area { length area.new ≡ length area.old }
{
    match op {
        Op::Num(value) => put(area, top, Answer::Val(*value), 0),
        Op::Eoi => put(area, top, whole(results.eoi()), 0),
        Op::Own(attr) => put(area, top, found(results.own(*attr)), 0),
        Op::Outer(attr) => put(area, top, found(results.outer(*attr)), 0),
        Op::Loop => put(area, top, found(results.item()), 0),
        Op::Seen { term, sym, field } => {
            put(area, top, found(results.seen(*term, sym, *field)), 0)
        }
        Op::Item { term, field } => item(results, area, top, *term, *field),
        Op::After { term, skip } => end(results, area, top, *term, *skip),
        Op::Neg => neg(area, top),
        Op::Not => inverse(area, top),
        Op::Two(op) => two(area, top, *op),
        Op::Both { skip } => both(area, top, *skip),
        Op::Either { skip } => either(area, top, *skip),
        Op::Truth => as_truth(area, top),
        Op::Cond { skip } => cond(area, top, *skip),
        Op::Else { skip } => RowTurn::On { skip: *skip, top },
        Op::Close => RowTurn::On { skip: 0, top },
    }
}

/// What rows compute, row by row on the stack.
#[inline(never)]
fn on_stack<R: Results>(ops: &[Op], results: &R, area: &mut [i64]) -> Answer
    ensures value { (env : Environment) → R.stands results.now env → result ≡ run env (length area.old) 0 ops.now [] }
    ensures area { length area.new ≡ length area.old }
{
    let mut left = ops;
    let mut top = 0;
    while !left.is_empty() {
        match step(&left[0], results, area, top) {
            RowTurn::On { skip, top: next } => {
                left = past(left, skip as usize + 1);
                top = next;
            }
            RowTurn::End(answer) => return answer,
        }
    }
    match take(area, top) {
        Some(taken) => Answer::Val(taken.value),
        None => Answer::Fail,
    }
}

/// What rows compute, whatever they are. It stays apart, so that plain rows are evaluated where they are asked for.
#[inline(never)]
fn longer<R: Results>(ops: &[Op], results: &R, area: &mut [i64]) -> Answer
    ensures value { (env : Environment) → R.stands results.now env → result ≡ run env (length area.old) 0 ops.now [] }
    ensures area { length area.new ≡ length area.old }
{
    if !area.is_empty() {
        if let Some(value) = alone(ops, results) {
            return Answer::Val(value);
        }
    }
    if area.len() >= 2 {
        if let Some(value) = in_hand(ops, results) {
            return Answer::Val(value);
        }
    }
    on_stack(ops, results, area)
}

/// What rows compute.
#[inline(always)]
pub(crate) fn evaluate<R: Results>(ops: &[Op], results: &R, area: &mut [i64]) -> Answer
    ensures value { (env : Environment) → R.stands results.now env → result ≡ run env (length area.old) 0 ops.now [] }
    ensures area { length area.new ≡ length area.old }
{
    if let Some(value) = lone(ops, results, area.len()) {
        return Answer::Val(value);
    }
    if let Some(value) = pair(ops, results, area.len()) {
        return Answer::Val(value);
    }
    longer(ops, results, area)
}
