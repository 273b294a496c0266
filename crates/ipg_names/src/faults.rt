//! The first fault of the names in a term.
#![tactic(auto, using(crate::proofs::Firsts::firsts))]

ghost use Rattle.std.specs.Prelude.{◌≡◌, None, option_map, flat_map, is_some};
ghost use Rattle.ipg_names.specs.Fault.{first_of};
ghost use Rattle.ipg_names.specs.Faults as spec;
ghost use Rattle.ipg_names_scope.specs.Site.{spot_scope, callee_sym};

use crate::fault::{NameFault, earlier};
use ipg_ast::{Case, Expr, Field, Ident, Place, Slot, Term, What};
use ipg_names_scope::{
    Callee, TermSpot, all_have, call_at, callee_at, is_before, is_outer, is_own, is_var, item_spot,
    items_at, some_has,
};

fn rule_fault(spot: &TermSpot<'_, '_, '_>, name: &[u8], at: u32) -> Option<NameFault>
    ensures { result ≡ first_of (spec.rule_fault (spot_scope spot.now) name.now at) }
{
    if callee_at(spot, name).is_some() {
        None
    } else {
        Some(NameFault::UnknownRule { at })
    }
}

fn is_known(spot: &TermSpot<'_, '_, '_>, name: &[u8]) -> bool
    ensures { result ≡ spec.is_known (spot_scope spot.now) name.now }
{
    is_own(spot, name) || (is_var(spot, name) || is_outer(spot, name))
}

fn name_fault(spot: &TermSpot<'_, '_, '_>, name: &Ident) -> Option<NameFault>
    ensures { result ≡ first_of (spec.name_fault (spot_scope spot.now) name.now) }
{
    if is_known(spot, name.name.as_slice()) {
        None
    } else {
        Some(NameFault::UnknownAttr { at: name.span.from })
    }
}

fn attr_fault(spot: &TermSpot<'_, '_, '_>, callee: Callee, field: &Ident) -> Option<NameFault>
    ensures { result ≡ first_of (spec.attr_fault (spot_scope spot.now) (callee_sym callee) field.now) }
{
    let at = field.span.from;
    let name = field.name.as_slice();
    if !some_has(spot, callee, name) {
        Some(NameFault::UnknownAttr { at })
    } else if all_have(spot, callee, name) {
        None
    } else {
        Some(NameFault::PartAttr { at })
    }
}

fn field_fault(
    spot: &TermSpot<'_, '_, '_>,
    callee: Option<Callee>,
    field: &Field,
) -> Option<NameFault>
    ensures { result ≡ first_of (spec.field_fault (spot_scope spot.now) (option_map callee_sym callee) field.now) }
{
    match (callee, field) {
        (Some(callee), Field::Id(field)) => attr_fault(spot, callee, field),
        (Some(_), Field::Start) => None,
        (Some(_), Field::End) => None,
        (None, _) => None,
    }
}

fn occurrence_fault(referred: Option<u32>, at: u32) -> Option<NameFault>
    ensures { result ≡ first_of (spec.occurrence_fault referred at) }
{
    match referred {
        Some(_) => None,
        None => Some(NameFault::NoOccurrence { at }),
    }
}

fn reference_fault(
    spot: &TermSpot<'_, '_, '_>,
    referred: Option<u32>,
    of: &Ident,
    field: &Field,
) -> Option<NameFault>
    ensures { result ≡ first_of (spec.reference_fault (spot_scope spot.now) referred of.now field.now) }
{
    let name = of.name.as_slice();
    let rule = rule_fault(spot, name, of.span.from);
    let occurrence = occurrence_fault(referred, of.span.from);
    let field = field_fault(spot, callee_at(spot, name), field);
    earlier(rule, earlier(occurrence, field))
}

fn expr_fault(spot: &TermSpot<'_, '_, '_>, e: &Expr) -> Option<NameFault>
    ensures { result ≡ first_of (spec.expr_faults (spot_scope spot.now) e.now) }
{
    match e {
        Expr::Num(_) => None,
        Expr::Eoi => None,
        Expr::Id(name) => name_fault(spot, name),
        Expr::Part(of, field) => {
            reference_fault(spot, call_at(spot, of.name.as_slice()), of, field)
        }
        Expr::Item(of, index, field) => {
            let referred = items_at(spot, of.name.as_slice());
            let index = expr_fault(spot, index.get());
            earlier(index, reference_fault(spot, referred, of, field))
        }
        Expr::Group(inner) => expr_fault(spot, inner.get()),
        Expr::Neg(inner) => expr_fault(spot, inner.get()),
        Expr::Not(inner) => expr_fault(spot, inner.get()),
        Expr::Two(_, a, b) => earlier(expr_fault(spot, a.get()), expr_fault(spot, b.get())),
        Expr::Both(a, b) => earlier(expr_fault(spot, a.get()), expr_fault(spot, b.get())),
        Expr::Either(a, b) => earlier(expr_fault(spot, a.get()), expr_fault(spot, b.get())),
        Expr::Cond(cond, a, b) => {
            let cond = expr_fault(spot, cond.get());
            let a = expr_fault(spot, a.get());
            earlier(cond, earlier(a, expr_fault(spot, b.get())))
        }
    }
}

fn place_fault(spot: &TermSpot<'_, '_, '_>, place: &Place) -> Option<NameFault>
    ensures { result ≡ first_of (spec.place_faults (spot_scope spot.now) place.now) }
{
    match place {
        Place::Open => None,
        Place::Length(length) => expr_fault(spot, length),
        Place::Ends(left, right) => ends_fault(spot, left, right),
    }
}

fn what_fault(spot: &TermSpot<'_, '_, '_>, what: &What, at: u32) -> Option<NameFault>
    ensures { result ≡ first_of (spec.what_fault (spot_scope spot.now) what.now at) }
{
    match what {
        What::Text(_) => None,
        What::Call(name) => rule_fault(spot, name.as_slice(), at),
    }
}

fn slot_fault(spot: &TermSpot<'_, '_, '_>, slot: &Slot) -> Option<NameFault>
    ensures { result ≡ first_of (spec.slot_faults (spot_scope spot.now) slot.now) }
{
    earlier(
        what_fault(spot, &slot.what, slot.span.from),
        place_fault(spot, &slot.place),
    )
}

fn case_fault(spot: &TermSpot<'_, '_, '_>, case: &Case) -> Option<NameFault>
    ensures { result ≡ first_of (spec.case_faults (spot_scope spot.now) case.now) }
{
    earlier(expr_fault(spot, &case.cond), slot_fault(spot, &case.slot))
}

fn cases_fault(spot: &TermSpot<'_, '_, '_>, cases: &[Case]) -> Option<NameFault>
    ensures { result ≡ first_of (flat_map (spec.case_faults (spot_scope spot.now)) cases.now) }
{
    let mut fault = None;
    for case in cases {
        fault = earlier(fault, case_fault(spot, case));
    }
    fault
}

fn set_fault(spot: &TermSpot<'_, '_, '_>, name: &Ident) -> Option<NameFault>
    ensures { result ≡ first_of (spec.set_fault (spot_scope spot.now) name.now) }
{
    if is_before(spot, name.name.as_slice()) {
        Some(NameFault::DuplicateAttr { at: name.span.from })
    } else {
        None
    }
}

fn var_fault(spot: &TermSpot<'_, '_, '_>, var: &Ident) -> Option<NameFault>
    ensures { result ≡ first_of (spec.var_fault (spot_scope spot.now) var.now) }
{
    if is_own(spot, var.name.as_slice()) {
        Some(NameFault::DuplicateAttr { at: var.span.from })
    } else {
        None
    }
}

fn ends_fault(spot: &TermSpot<'_, '_, '_>, from: &Expr, to: &Expr) -> Option<NameFault>
    ensures { result ≡ first_of (spec.ends_faults (spot_scope spot.now) from.now to.now) }
{
    earlier(expr_fault(spot, from), expr_fault(spot, to))
}

/// The first fault of a term.
pub fn term_fault(spot: &TermSpot<'_, '_, '_>, term: &Term) -> Option<NameFault>
    requires { spot.now.inside ≡ None }
    ensures { result ≡ first_of (spec.term_faults (spot_scope spot.now) term.now) }
{
    match term {
        Term::Slot(slot) => slot_fault(spot, slot),
        Term::Set { name, value } => earlier(set_fault(spot, name), expr_fault(spot, value)),
        Term::Test { cond, .. } => expr_fault(spot, cond),
        Term::Repeat {
            var,
            first,
            last,
            item,
            from,
            to,
        } => {
            let inside = item_spot(spot, var, item);
            let ends = ends_fault(&inside, from, to);
            let rule = rule_fault(spot, item.name.as_slice(), item.span.from);
            let bounds = ends_fault(spot, first, last);
            earlier(var_fault(spot, var), earlier(bounds, earlier(rule, ends)))
        }
        Term::Many { item, place, .. } => earlier(
            rule_fault(spot, item.name.as_slice(), item.span.from),
            place_fault(spot, place),
        ),
        Term::Pick { cases, other, .. } => earlier(
            cases_fault(spot, cases.as_slice()),
            slot_fault(spot, other),
        ),
    }
}
