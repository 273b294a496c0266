//! Whether expressions, and whether variables, are the same.

ghost use Rattle.std.specs.Prelude.{◌≡◌};
ghost use Rattle.ipg_core.specs.declared.grammar.CoreExpr.{out-CoreExpr};
ghost use Rattle.ipg_core.specs.declared.grammar.CoreExpr.TheOpen.{CoreExpr-F};
ghost use Rattle.ipg_facts_variables.specs.Variable as spec;

use crate::variable::{Quantity, Side, Variable};
use ipg_core::grammar::{CoreExpr, CoreField, Sym};
use ipg_num::Op2;

pub fn operator_number(op: Op2) -> u64
    ensures { result ≡ spec.operator_number op }
{
    match op {
        Op2::Add => 0,
        Op2::Sub => 1,
        Op2::Mul => 2,
        Op2::Div => 3,
        Op2::Mod => 4,
        Op2::Shl => 5,
        Op2::Shr => 6,
        Op2::BitAnd => 7,
        Op2::BitOr => 8,
        Op2::BitXor => 9,
        Op2::Eq => 10,
        Op2::Ne => 11,
        Op2::Lt => 12,
        Op2::Le => 13,
        Op2::Gt => 14,
        Op2::Ge => 15,
    }
}

fn same_field(a: CoreField, b: CoreField) -> bool
    ensures { result ≡ spec.same_field a b }
{
    match (a, b) {
        (CoreField::Attr(a), CoreField::Attr(b)) => a == b,
        (CoreField::Start, CoreField::Start) => true,
        (CoreField::End, CoreField::End) => true,
        _ => false,
    }
}

fn same_sym(a: &Sym, b: &Sym) -> bool
    ensures { result ≡ spec.same_sym a.now b.now }
{
    match (a, b) {
        (Sym::Text(a), Sym::Text(b)) => a.as_slice() == b.as_slice(),
        (Sym::Prim(a), Sym::Prim(b)) => a.number() == b.number(),
        (Sym::Rule(a), Sym::Rule(b)) => a == b,
        _ => false,
    }
}

fn is_number(e: &CoreExpr, value: i64) -> bool
    ensures { result ≡ spec.same_layer (CoreExpr-F.Num value) (out-CoreExpr e.now) }
{
    match e {
        CoreExpr::Num(other) => value == *other,
        _ => false,
    }
}

fn is_length(e: &CoreExpr) -> bool
    ensures { result ≡ spec.same_layer CoreExpr-F.Eoi (out-CoreExpr e.now) }
{
    match e {
        CoreExpr::Eoi => true,
        _ => false,
    }
}

fn is_own(e: &CoreExpr, attr: u32) -> bool
    ensures { result ≡ spec.same_layer (CoreExpr-F.Own attr) (out-CoreExpr e.now) }
{
    match e {
        CoreExpr::Own(other) => attr == *other,
        _ => false,
    }
}

fn is_outer(e: &CoreExpr, attr: u32) -> bool
    ensures { result ≡ spec.same_layer (CoreExpr-F.Outer attr) (out-CoreExpr e.now) }
{
    match e {
        CoreExpr::Outer(other) => attr == *other,
        _ => false,
    }
}

fn is_loop(e: &CoreExpr) -> bool
    ensures { result ≡ spec.same_layer CoreExpr-F.Loop (out-CoreExpr e.now) }
{
    match e {
        CoreExpr::Loop => true,
        _ => false,
    }
}

fn is_seen(e: &CoreExpr, at: u32, taken: &Sym, of: CoreField) -> bool
    ensures { result ≡ spec.same_layer (CoreExpr-F.Seen at taken.now of) (out-CoreExpr e.now) }
{
    match e {
        CoreExpr::Seen { term, sym, field } => {
            at == *term && same_sym(taken, sym) && same_field(of, *field)
        }
        _ => false,
    }
}

#[cycle(same)]
fn is_item(e: &CoreExpr, at: u32, of: &CoreExpr, read: CoreField) -> bool
    ensures { result ≡ spec.same_layer (CoreExpr-F.Item at (spec.same_expr of.now) read) (out-CoreExpr e.now) }
{
    match e {
        CoreExpr::Item { term, index, field } => {
            at == *term && same_field(read, *field) && same_expr(index.get(), of)
        }
        _ => false,
    }
}

#[cycle(same)]
fn is_after(e: &CoreExpr, at: u32, else_left: &CoreExpr) -> bool
    ensures { result ≡ spec.same_layer (CoreExpr-F.After at (spec.same_expr else_left.now)) (out-CoreExpr e.now) }
{
    match e {
        CoreExpr::After { term, left } => at == *term && same_expr(left.get(), else_left),
        _ => false,
    }
}

#[cycle(same)]
fn is_negative(e: &CoreExpr, of: &CoreExpr) -> bool
    ensures { result ≡ spec.same_layer (CoreExpr-F.Neg (spec.same_expr of.now)) (out-CoreExpr e.now) }
{
    match e {
        CoreExpr::Neg(other) => same_expr(other.get(), of),
        _ => false,
    }
}

#[cycle(same)]
fn is_not(e: &CoreExpr, of: &CoreExpr) -> bool
    ensures { result ≡ spec.same_layer (CoreExpr-F.Not (spec.same_expr of.now)) (out-CoreExpr e.now) }
{
    match e {
        CoreExpr::Not(other) => same_expr(other.get(), of),
        _ => false,
    }
}

#[cycle(same)]
fn is_two(e: &CoreExpr, op: Op2, a: &CoreExpr, b: &CoreExpr) -> bool
    ensures { result ≡ spec.same_layer (CoreExpr-F.Two op (spec.same_expr a.now) (spec.same_expr b.now)) (out-CoreExpr e.now) }
{
    match e {
        CoreExpr::Two(other, c, d) => {
            operator_number(op) == operator_number(*other)
                && same_expr(c.get(), a)
                && same_expr(d.get(), b)
        }
        _ => false,
    }
}

#[cycle(same)]
fn is_both(e: &CoreExpr, a: &CoreExpr, b: &CoreExpr) -> bool
    ensures { result ≡ spec.same_layer (CoreExpr-F.Both (spec.same_expr a.now) (spec.same_expr b.now)) (out-CoreExpr e.now) }
{
    match e {
        CoreExpr::Both(c, d) => same_expr(c.get(), a) && same_expr(d.get(), b),
        _ => false,
    }
}

#[cycle(same)]
fn is_either(e: &CoreExpr, a: &CoreExpr, b: &CoreExpr) -> bool
    ensures { result ≡ spec.same_layer (CoreExpr-F.Either (spec.same_expr a.now) (spec.same_expr b.now)) (out-CoreExpr e.now) }
{
    match e {
        CoreExpr::Either(c, d) => same_expr(c.get(), a) && same_expr(d.get(), b),
        _ => false,
    }
}

#[cycle(same)]
fn is_cond(e: &CoreExpr, c: &CoreExpr, a: &CoreExpr, b: &CoreExpr) -> bool
    ensures { result ≡ spec.same_layer
        (CoreExpr-F.Cond (spec.same_expr c.now) (spec.same_expr a.now) (spec.same_expr b.now)) (out-CoreExpr e.now) }
{
    match e {
        CoreExpr::Cond(d, x, y) => {
            same_expr(d.get(), c) && same_expr(x.get(), a) && same_expr(y.get(), b)
        }
        _ => false,
    }
}

/// Whether the second expression is the first one.
#[cycle(same)]
#[tactic(auto, unfolding(crate::specs::Variable::same_expr))]
pub fn same_expr(e: &CoreExpr, of: &CoreExpr) -> bool
    ensures { result ≡ spec.same_expr of.now e.now }
{
    match of {
        CoreExpr::Num(value) => is_number(e, *value),
        CoreExpr::Eoi => is_length(e),
        CoreExpr::Own(attr) => is_own(e, *attr),
        CoreExpr::Outer(attr) => is_outer(e, *attr),
        CoreExpr::Loop => is_loop(e),
        CoreExpr::Seen { term, sym, field } => is_seen(e, *term, sym, *field),
        CoreExpr::Item { term, index, field } => is_item(e, *term, index.get(), *field),
        CoreExpr::After { term, left } => is_after(e, *term, left.get()),
        CoreExpr::Neg(a) => is_negative(e, a.get()),
        CoreExpr::Not(a) => is_not(e, a.get()),
        CoreExpr::Two(op, a, b) => is_two(e, *op, a.get(), b.get()),
        CoreExpr::Both(a, b) => is_both(e, a.get(), b.get()),
        CoreExpr::Either(a, b) => is_either(e, a.get(), b.get()),
        CoreExpr::Cond(c, a, b) => is_cond(e, c.get(), a.get(), b.get()),
    }
}

fn same_side(a: Side, b: Side) -> bool
    ensures { result ≡ spec.same_side a b }
{
    match (a, b) {
        (Side::Caller, Side::Caller) => true,
        (Side::Holder, Side::Holder) => true,
        (Side::Point, Side::Point) => true,
        _ => false,
    }
}

fn same_quantity(a: &Quantity, b: &Quantity) -> bool
    ensures { result ≡ spec.same_quantity a.now b.now }
{
    match (a, b) {
        (Quantity::Whole, Quantity::Whole) => true,
        (Quantity::Attribute(a), Quantity::Attribute(b)) => a == b,
        (Quantity::Loop, Quantity::Loop) => true,
        (Quantity::Start(a), Quantity::Start(b)) => a == b,
        (Quantity::End(a), Quantity::End(b)) => a == b,
        (Quantity::Named(a, n), Quantity::Named(b, m)) => a == b && n.as_slice() == m.as_slice(),
        (Quantity::Value(a), Quantity::Value(b)) => same_expr(b.get(), a.get()),
        _ => false,
    }
}

/// Whether two variables are the same.
#[tactic(auto, unfolding(crate::specs::Variable::same_variable))]
pub fn same_variable(a: &Variable, b: &Variable) -> bool
    ensures { result ≡ spec.same_variable a.now b.now }
{
    same_side(a.side, b.side) && same_quantity(&a.of, &b.of)
}
