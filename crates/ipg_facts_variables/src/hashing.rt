//! Variables in a hash table.

ghost use Rattle.std.specs.Prelude.{◌≡◌, ◌<◌, fold};
ghost use Rattle.std.specs.Hash.{same_Alike};
ghost use Rattle.ipg_core.specs.declared.grammar.CoreExpr.{out-CoreExpr};
ghost use Rattle.ipg_facts_variables.specs.Variable as variables;
ghost use Rattle.ipg_facts_variables.specs.Hashing as spec;
ghost use Rattle.ipg_facts_variables.specs.Equality.{same_variables_are_equal};
ghost use Rattle.std.specs.Cmp.{decided, partial_equiv_from_equiv};

use crate::same::{operator_number, same_variable};
use crate::variable::{Quantity, Side, Variable};
use ipg_core::grammar::{CoreExpr, CoreField};
use std::hash::{Hash, Hasher};

fn feed_kind<H: Hasher>(state: &mut H, kind: u64, number: u32)
    requires { kind < 16 }
    ensures { state.new ≡ fold H.write state.old (spec.fed_kind kind number) }
{
    state.write_u64(u64::from(number) * 16 + kind);
}

fn feed_field<H: Hasher>(state: &mut H, field: CoreField)
    ensures { state.new ≡ fold H.write state.old (spec.fed_field field) }
{
    match field {
        CoreField::Attr(attr) => feed_kind(state, 0, attr),
        CoreField::Start => feed_kind(state, 1, 0),
        CoreField::End => feed_kind(state, 2, 0),
    }
}

/// An expression without those in it.
fn feed_head<H: Hasher>(state: &mut H, e: &CoreExpr)
    ensures { state.new ≡ fold H.write state.old (spec.fed_head (out-CoreExpr e.now)) }
{
    match e {
        CoreExpr::Num(value) => state.write_i64(*value),
        CoreExpr::Eoi => feed_kind(state, 2, 0),
        CoreExpr::Own(attr) => feed_kind(state, 3, *attr),
        CoreExpr::Outer(attr) => feed_kind(state, 4, *attr),
        CoreExpr::Loop => feed_kind(state, 5, 0),
        CoreExpr::Seen {
            term,
            sym: _,
            field,
        } => {
            feed_kind(state, 6, *term);
            feed_field(state, *field);
        }
        CoreExpr::Item {
            term,
            index: _,
            field,
        } => {
            feed_kind(state, 7, *term);
            feed_field(state, *field);
        }
        CoreExpr::After { term, left: _ } => feed_kind(state, 8, *term),
        CoreExpr::Neg(_) => feed_kind(state, 9, 0),
        CoreExpr::Not(_) => feed_kind(state, 10, 0),
        CoreExpr::Two(op, _, _) => feed_kind(state, 11, operator_number(*op) as u32),
        CoreExpr::Both(_, _) => feed_kind(state, 12, 0),
        CoreExpr::Either(_, _) => feed_kind(state, 13, 0),
        CoreExpr::Cond(_, _, _) => feed_kind(state, 14, 0),
    }
}

#[tactic(auto, unfolding(crate::specs::Hashing::fed_expr))]
fn feed_expr<H: Hasher>(state: &mut H, e: &CoreExpr)
    ensures { state.new ≡ fold H.write state.old (spec.fed_expr e.now) }
{
    feed_head(state, e);
    match e {
        CoreExpr::Item {
            term: _,
            index,
            field: _,
        } => feed_expr(state, index.get()),
        CoreExpr::After { term: _, left } => feed_expr(state, left.get()),
        CoreExpr::Neg(a) => feed_expr(state, a.get()),
        CoreExpr::Not(a) => feed_expr(state, a.get()),
        CoreExpr::Two(_, a, b) => {
            feed_expr(state, a.get());
            feed_expr(state, b.get());
        }
        CoreExpr::Both(a, b) => {
            feed_expr(state, a.get());
            feed_expr(state, b.get());
        }
        CoreExpr::Either(a, b) => {
            feed_expr(state, a.get());
            feed_expr(state, b.get());
        }
        CoreExpr::Cond(c, a, b) => {
            feed_expr(state, c.get());
            feed_expr(state, a.get());
            feed_expr(state, b.get());
        }
        _ => {}
    }
}

fn side_number(side: Side) -> u32
    ensures { result ≡ spec.side_number side }
{
    match side {
        Side::Caller => 0,
        Side::Holder => 1,
        Side::Point => 2,
    }
}

fn feed_quantity<H: Hasher>(state: &mut H, of: &Quantity)
    ensures { state.new ≡ fold H.write state.old (spec.fed_quantity of.now) }
{
    match of {
        Quantity::Whole => feed_kind(state, 0, 0),
        Quantity::Attribute(attr) => feed_kind(state, 1, *attr),
        Quantity::Loop => feed_kind(state, 2, 0),
        Quantity::Start(term) => feed_kind(state, 3, *term),
        Quantity::End(term) => feed_kind(state, 4, *term),
        Quantity::Named(term, name) => {
            feed_kind(state, 5, *term);
            name.as_slice().hash(state);
        }
        Quantity::Value(e) => feed_expr(state, e.get()),
    }
}

#[tactic(auto, unfolding(crate::specs::Hashing::fed_variable))]
fn feed_variable<H: Hasher>(state: &mut H, variable: &Variable)
    ensures { state.new ≡ fold H.write state.old (spec.fed_variable variable.now) }
{
    feed_kind(state, 15, side_number(variable.side));
    feed_quantity(state, &variable.of);
}

impl PartialEq for Variable {
    ghost eq = { variables.same_variable };

    ghost laws = { partial_equiv_from_equiv (decided variables.same_variable same_variables_are_equal) };

    fn eq(&self, other: &Variable) -> bool {
        same_variable(self, other)
    }
}

impl Eq for Variable {
    ghost laws = { decided variables.same_variable same_variables_are_equal };
}

impl Hash for Variable {
    ghost hash_input = { spec.fed_variable };

    ghost respects_eq = { (same_Alike spec.fed_variable same_variables_are_equal).fed };

    fn hash<H: Hasher>(&self, state: &mut H) {
        feed_variable(state, self);
    }
}
