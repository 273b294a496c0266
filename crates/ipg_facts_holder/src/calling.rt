//! Which terms call local rules.

ghost use Rattle.std.specs.Prelude.{◌≡◌, option_copied};
ghost use Rattle.std.specs.List.{list_any};
ghost use Rattle.ipg_core.specs.Grammar.{holder_of, rule_at};
ghost use Rattle.ipg_facts_holder.specs.Holder as held;
ghost use Rattle.ipg_facts_holder.specs.Calling as spec;

use crate::marks::is_marked;
use ipg_core::accepted::Core;
use ipg_core::grammar::{CoreExpr, CoreSlot, CoreTerm, Sym};
use ipg_num::item_at;

fn holder_at(g: &Core, rule: u32) -> Option<(u32, u32)>
    ensures { result ≡ holder_of (rule_at g.now rule) }
{
    match item_at(g.rules(), rule as usize) {
        None => None,
        Some(rule) => rule.holder,
    }
}

fn is_held(at: Option<(u32, u32)>, holder: Option<(u32, u32)>) -> bool
    ensures { result ≡ held.is_held at holder }
{
    match holder {
        None => false,
        Some(holder) => match at {
            None => true,
            Some(at) => holder.0 == at.0 && holder.1 == at.1,
        },
    }
}

fn counts(marks: Option<&[bool]>, rule: u32) -> bool
    ensures { result ≡ spec.counts (option_copied marks.entry) rule }
{
    match marks {
        None => true,
        Some(marks) => is_marked(marks, rule),
    }
}

fn calls(g: &Core, at: Option<(u32, u32)>, marks: Option<&[bool]>, sym: &Sym) -> bool
    ensures { result ≡ spec.calls_by g.now at (option_copied marks.entry) sym.now }
{
    match sym {
        Sym::Text(_) => false,
        Sym::Prim(_) => false,
        Sym::Rule(callee) => is_held(at, holder_at(g, *callee)) && counts(marks, *callee),
    }
}

fn cases_call(
    g: &Core,
    at: Option<(u32, u32)>,
    marks: Option<&[bool]>,
    cases: &[(CoreExpr, CoreSlot)],
) -> bool
    ensures { result ≡ list_any (λ c. spec.calls_by g.now at (option_copied marks.entry) c.1.sym) cases.now }
{
    cases.iter().any(|case| calls(g, at, marks, &case.1.sym))
}

/// Whether the term calls a local rule that is marked, where there are marks, and of that alternative, where one is asked for.
#[tactic(auto, unfolding(crate::specs::Calling::calls_some_by), using(crate::proofs::Marking::any_one, crate::proofs::Marking::any_calls))]
pub fn calls_some(g: &Core, at: Option<(u32, u32)>, marks: Option<&[bool]>, term: &CoreTerm) -> bool
    ensures { result ≡ spec.calls_some_by g.now at (option_copied marks.entry) term.now }
{
    match term {
        CoreTerm::Slot(slot) => calls(g, at, marks, &slot.sym),
        CoreTerm::Set { attr: _, value: _ } => false,
        CoreTerm::Test(_) => false,
        CoreTerm::Repeat {
            first: _,
            last: _,
            item,
            from: _,
            to: _,
        } => calls(g, at, marks, item),
        CoreTerm::Many {
            item,
            from: _,
            to: _,
        } => calls(g, at, marks, item),
        CoreTerm::Pick { cases, other } => {
            cases_call(g, at, marks, cases.as_slice()) || calls(g, at, marks, &other.sym)
        }
    }
}
