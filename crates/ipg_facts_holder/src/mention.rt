//! Which mentions stand in an expression.

ghost use Rattle.std.specs.Prelude.{◌≡◌, Option, nat_eq};
ghost use Rattle.std.specs.List.{list_any};
ghost use Rattle.ipg_core.specs.Mention as core;
ghost use Rattle.ipg_facts_holder.specs.Holder as spec;

use ipg_core::grammar::{CoreExpr, CoreField, CoreSlot, CoreTerm};

/// What a mention is asked for.
#[derive(Clone, Copy)]
pub enum Ask {
    /// An attribute of the holder.
    AnyOuter,
    /// That attribute of the holder.
    Outer(u32),
    /// The term of that number, or the attribute that it sets.
    Needs(u32, Option<u32>),
}

fn is_term(ask: Ask, term: u32) -> bool
    ensures { result ≡ spec.answers ask (core.ItemOf term) }
{
    match ask {
        Ask::Needs(needed, _) => term == needed,
        Ask::AnyOuter => false,
        Ask::Outer(_) => false,
    }
}

fn is_own(ask: Ask, attr: u32) -> bool
    ensures { result ≡ spec.answers ask (core.OwnOf attr) }
{
    match ask {
        Ask::Needs(_, Some(set)) => set == attr,
        Ask::Needs(_, None) => false,
        Ask::AnyOuter => false,
        Ask::Outer(_) => false,
    }
}

fn is_outer(ask: Ask, attr: u32) -> bool
    ensures { result ≡ spec.answers ask (core.OuterOf attr) }
{
    match ask {
        Ask::AnyOuter => true,
        Ask::Outer(asked) => attr == asked,
        Ask::Needs(_, _) => false,
    }
}

/// Whether some mention in the expression is asked for.
#[tactic(auto, using(crate::proofs::Mentions::any_append, crate::proofs::Mentions::any_fields))]
fn in_expr(ask: Ask, e: &CoreExpr) -> bool
    ensures { result ≡ list_any (spec.answers ask) (core.mentions e.now) }
{
    match e {
        CoreExpr::Num(_) => false,
        CoreExpr::Eoi => false,
        CoreExpr::Own(attr) => is_own(ask, *attr),
        CoreExpr::Outer(attr) => is_outer(ask, *attr),
        CoreExpr::Loop => false,
        CoreExpr::Seen {
            term,
            sym: _,
            field: _,
        } => is_term(ask, *term),
        CoreExpr::Item {
            term,
            index,
            field: _,
        } => is_term(ask, *term) || in_expr(ask, index.get()),
        CoreExpr::After { term, left } => is_term(ask, *term) || in_expr(ask, left.get()),
        CoreExpr::Neg(a) => in_expr(ask, a.get()),
        CoreExpr::Not(a) => in_expr(ask, a.get()),
        CoreExpr::Two(_, a, b) => in_expr(ask, a.get()) || in_expr(ask, b.get()),
        CoreExpr::Both(a, b) => in_expr(ask, a.get()) || in_expr(ask, b.get()),
        CoreExpr::Either(a, b) => in_expr(ask, a.get()) || in_expr(ask, b.get()),
        CoreExpr::Cond(c, a, b) => {
            in_expr(ask, c.get()) || in_expr(ask, a.get()) || in_expr(ask, b.get())
        }
    }
}

#[tactic(auto, using(crate::proofs::Mentions::any_append))]
fn in_slot(ask: Ask, slot: &CoreSlot) -> bool
    ensures { result ≡ list_any (spec.answers ask) (core.slot_mentions slot.now) }
{
    in_expr(ask, &slot.from) || in_expr(ask, &slot.to)
}

#[tactic(auto, using(crate::proofs::Mentions::any_append))]
fn in_case(ask: Ask, case: &(CoreExpr, CoreSlot)) -> bool
    ensures { result ≡ list_any (spec.answers ask) (core.case_mentions case.now) }
{
    in_expr(ask, &case.0) || in_slot(ask, &case.1)
}

fn in_cases(ask: Ask, cases: &[(CoreExpr, CoreSlot)]) -> bool
    ensures { result ≡ list_any (λ c. list_any (spec.answers ask) (core.case_mentions c)) cases.now }
{
    cases.iter().any(|case| in_case(ask, case))
}

/// Whether some mention in the expressions of the term is asked for.
#[tactic(auto, unfolding(crate::specs::Holder::mentions_some), using(crate::proofs::Mentions::any_append, crate::proofs::Mentions::any_flat))]
pub fn mentions_some(ask: Ask, term: &CoreTerm) -> bool
    ensures { result ≡ spec.mentions_some ask term.now }
{
    match term {
        CoreTerm::Slot(slot) => in_slot(ask, slot),
        CoreTerm::Set { attr: _, value } => in_expr(ask, value),
        CoreTerm::Test(e) => in_expr(ask, e),
        CoreTerm::Repeat {
            first,
            last,
            item: _,
            from,
            to,
        } => { in_expr(ask, first) || in_expr(ask, last) || in_expr(ask, from) || in_expr(ask, to) }
        CoreTerm::Many { item: _, from, to } => in_expr(ask, from) || in_expr(ask, to),
        CoreTerm::Pick { cases, other } => in_cases(ask, cases.as_slice()) || in_slot(ask, other),
    }
}
