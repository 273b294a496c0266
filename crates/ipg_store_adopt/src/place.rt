//! What the terms of an alternative may name.

ghost use Rattle.std.specs.Prelude.{◌≡◌, ◌<◌, ◌≤◌, slice_get, length, flat_map};
ghost use Rattle.std.specs.List.{list_all};
ghost use Rattle.std.specs.Option.{option_copied};
ghost use Rattle.ipg_core.specs.Grammar.{same_place};
ghost use Rattle.ipg_core.specs.Mention.{field_mentions, mentions, slot_mentions, case_mentions, term_mentions};
ghost use Rattle.ipg_store_adopt.specs.WellFormed as spec;
ghost use Rattle.ipg_store_adopt.specs.Place.{grammar_of};

use crate::attrs::sets_some;
use ipg_core::grammar::{CoreAlt, CoreExpr, CoreField, CoreRule, CoreSlot, CoreTerm, Name, Sym};
use ipg_num::item_at;

/// An alternative among the rules.
#[derive(Clone, Copy)]
pub(crate) struct AltPlace<'a> {
    pub rules: &'a [CoreRule],
    pub names: &'a [Name],
    pub at: (usize, usize),
    pub holder: Option<(u32, u32)>,
    pub terms: &'a [CoreTerm],
}

fn is_same(a: (u32, u32), b: (u32, u32)) -> bool
    ensures { result ≡ same_place a b }
{
    a.0 == b.0 && a.1 == b.1
}

fn is_at(place: (u32, u32), at: (usize, usize)) -> bool
    ensures { result ≡ same_place place at }
{
    place.0 as usize == at.0 && place.1 as usize == at.1
}

fn has_holder(holder: Option<(u32, u32)>, at: (u32, u32)) -> bool
    ensures { result ≡ spec.has_holder holder at }
{
    match holder {
        None => false,
        Some(holder) => is_same(holder, at),
    }
}

fn has_items(term: Option<&CoreTerm>) -> bool
    ensures { result ≡ spec.has_items (option_copied term.entry) }
{
    match term {
        Some(CoreTerm::Repeat { .. }) => true,
        Some(CoreTerm::Many { .. }) => true,
        _ => false,
    }
}

fn is_slot_or_switch(term: Option<&CoreTerm>) -> bool
    ensures { result ≡ spec.is_slot_or_switch (option_copied term.entry) }
{
    match term {
        Some(CoreTerm::Slot(_)) => true,
        Some(CoreTerm::Pick { .. }) => true,
        _ => false,
    }
}

/// Whether the holder, if there is one, sets the attribute.
fn holder_sets(place: &AltPlace<'_>, attr: u32) -> bool
    ensures { result ≡ spec.holder_sets (grammar_of place.now) place.now.holder attr }
{
    match place.holder {
        None => false,
        Some((rule, alt)) => rule_sets(item_at(place.rules, rule as usize), alt, attr),
    }
}

fn rule_sets(rule: Option<&CoreRule>, alt: u32, attr: u32) -> bool
    ensures { result ≡ spec.sets_some (spec.terms_in (option_copied rule.entry) alt) attr }
{
    match rule {
        None => false,
        Some(rule) => alt_sets(item_at(rule.alts.as_slice(), alt as usize), attr),
    }
}

fn alt_sets(alt: Option<&CoreAlt>, attr: u32) -> bool
    ensures { result ≡ spec.sets_some (spec.terms_or_none (option_copied alt.entry)) attr }
{
    match alt {
        None => false,
        Some(alt) => sets_some(alt.terms.as_slice(), attr),
    }
}

fn is_sym(place: &AltPlace<'_>, sym: &Sym) -> bool
    ensures { result ≡ spec.is_sym (grammar_of place.now) sym.now }
{
    match sym {
        Sym::Rule(rule) => (*rule as usize) < place.rules.len(),
        Sym::Text(_) => true,
        Sym::Prim(_) => true,
    }
}

/// Whether the alternative may call a rule of that holder.
fn may_call(place: &AltPlace<'_>, other: Option<(u32, u32)>) -> bool
    ensures { result ≡ spec.may_call place.now.at place.now.holder other }
{
    match other {
        None => true,
        Some(other) => is_at(other, place.at) || has_holder(place.holder, other),
    }
}

fn may_call_rule(place: &AltPlace<'_>, rule: Option<&CoreRule>) -> bool
    ensures { result ≡ spec.may_call_rule place.now.at place.now.holder (option_copied rule.entry) }
{
    match rule {
        None => false,
        Some(rule) => may_call(place, rule.holder),
    }
}

fn is_callable(place: &AltPlace<'_>, sym: &Sym) -> bool
    ensures { result ≡ spec.is_callable (grammar_of place.now) place.now.at place.now.holder sym.now }
{
    match sym {
        Sym::Rule(rule) => may_call_rule(place, item_at(place.rules, *rule as usize)),
        Sym::Text(_) => true,
        Sym::Prim(_) => true,
    }
}

/// Whether each symbol that the term parses may be called.
fn calls_well(place: &AltPlace<'_>, term: &CoreTerm) -> bool
    ensures { result ≡ spec.calls_well (grammar_of place.now) place.now.at place.now.holder term.now }
{
    match term {
        CoreTerm::Slot(slot) => is_callable(place, &slot.sym),
        CoreTerm::Set { .. } => true,
        CoreTerm::Test(_) => true,
        CoreTerm::Repeat { item, .. } => is_callable(place, item),
        CoreTerm::Many { item, .. } => is_callable(place, item),
        CoreTerm::Pick { cases, other } => {
            branches_call_well(place, cases.as_slice()) && is_callable(place, &other.sym)
        }
    }
}

fn branches_call_well(place: &AltPlace<'_>, cases: &[(CoreExpr, CoreSlot)]) -> bool
    ensures { result ≡ list_all (λ c. spec.is_callable (grammar_of place.now) place.now.at place.now.holder c.1.sym) cases.now }
{
    cases.iter().all(|case| is_callable(place, &case.1.sym))
}

fn is_item_sym(sym: &Sym) -> bool
    ensures { result ≡ spec.is_item_sym sym.now }
{
    match sym {
        Sym::Text(_) => false,
        Sym::Prim(_) => true,
        Sym::Rule(_) => true,
    }
}

fn has_good_shape(place: &AltPlace<'_>, term: &CoreTerm) -> bool
    ensures { result ≡ spec.is_good_shape (grammar_of place.now) term.now }
{
    match term {
        CoreTerm::Set { attr, .. } => (*attr as usize) < place.names.len(),
        CoreTerm::Repeat { item, .. } => is_item_sym(item),
        CoreTerm::Many { item, .. } => is_item_sym(item),
        CoreTerm::Slot(_) => true,
        CoreTerm::Test(_) => true,
        CoreTerm::Pick { .. } => true,
    }
}

fn is_named(place: &AltPlace<'_>, u: usize, field: CoreField) -> bool
    ensures { result ≡ list_all (spec.is_good_mention (grammar_of place.now) place.now.holder place.now.terms.now u) (field_mentions field) }
{
    match field {
        CoreField::Attr(attr) => (attr as usize) < place.names.len(),
        CoreField::Start => true,
        CoreField::End => true,
    }
}

/// Whether what the expression of the term `u` names may be named there.
#[tactic(auto, using(crate::proofs::Appended::all_behind, crate::proofs::Appended::none_behind))]
fn names_well(place: &AltPlace<'_>, u: usize, e: &CoreExpr) -> bool
    ensures { result ≡ list_all (spec.is_good_mention (grammar_of place.now) place.now.holder place.now.terms.now u) (mentions e.now) }
{
    match e {
        CoreExpr::Num(_) => true,
        CoreExpr::Eoi => true,
        CoreExpr::Loop => true,
        CoreExpr::Own(attr) => sets_some(place.terms, *attr),
        CoreExpr::Outer(attr) => holder_sets(place, *attr),
        CoreExpr::Seen { term, sym, field } => {
            is_slot_or_switch(item_at(place.terms, *term as usize))
                && is_sym(place, sym)
                && is_named(place, u, *field)
        }
        CoreExpr::Item { term, index, field } => {
            has_items(item_at(place.terms, *term as usize))
                && names_well(place, u, index.get())
                && is_named(place, u, *field)
        }
        CoreExpr::After { term, left } => {
            has_items(item_at(place.terms, *term as usize))
                && *term as usize != u
                && names_well(place, u, left.get())
        }
        CoreExpr::Neg(a) => names_well(place, u, a.get()),
        CoreExpr::Not(a) => names_well(place, u, a.get()),
        CoreExpr::Two(_, a, b) => names_well(place, u, a.get()) && names_well(place, u, b.get()),
        CoreExpr::Both(a, b) => names_well(place, u, a.get()) && names_well(place, u, b.get()),
        CoreExpr::Either(a, b) => names_well(place, u, a.get()) && names_well(place, u, b.get()),
        CoreExpr::Cond(c, a, b) => {
            names_well(place, u, c.get())
                && names_well(place, u, a.get())
                && names_well(place, u, b.get())
        }
    }
}

#[tactic(auto, using(crate::proofs::Appended::all_behind, crate::proofs::Appended::none_behind))]
fn slot_names_well(place: &AltPlace<'_>, u: usize, slot: &CoreSlot) -> bool
    ensures { result ≡ list_all (spec.is_good_mention (grammar_of place.now) place.now.holder place.now.terms.now u) (slot_mentions slot.now) }
{
    names_well(place, u, &slot.from) && names_well(place, u, &slot.to)
}

#[tactic(auto, using(crate::proofs::Appended::all_behind, crate::proofs::Appended::none_behind))]
fn case_names_well(place: &AltPlace<'_>, u: usize, case: &(CoreExpr, CoreSlot)) -> bool
    ensures { result ≡ list_all (spec.is_good_mention (grammar_of place.now) place.now.holder place.now.terms.now u) (case_mentions case.now) }
{
    names_well(place, u, &case.0) && slot_names_well(place, u, &case.1)
}

#[tactic(auto, using(crate::proofs::Appended::all_behind, crate::proofs::Appended::none_behind))]
fn cases_name_well(place: &AltPlace<'_>, u: usize, cases: &[(CoreExpr, CoreSlot)]) -> bool
    ensures { result ≡ list_all (spec.is_good_mention (grammar_of place.now) place.now.holder place.now.terms.now u) (flat_map case_mentions cases.now) }
{
    for case in cases {
        if !case_names_well(place, u, case) {
            return false;
        }
    }
    true
}

/// Whether what the expressions of the term `u` name may be named there.
#[tactic(auto, using(crate::proofs::Appended::all_behind, crate::proofs::Appended::none_behind))]
fn term_names_well(place: &AltPlace<'_>, u: usize, term: &CoreTerm) -> bool
    ensures { result ≡ list_all (spec.is_good_mention (grammar_of place.now) place.now.holder place.now.terms.now u) (term_mentions term.now) }
{
    match term {
        CoreTerm::Slot(slot) => slot_names_well(place, u, slot),
        CoreTerm::Set { value, .. } => names_well(place, u, value),
        CoreTerm::Test(cond) => names_well(place, u, cond),
        CoreTerm::Repeat {
            first,
            last,
            from,
            to,
            ..
        } => {
            names_well(place, u, first)
                && names_well(place, u, last)
                && names_well(place, u, from)
                && names_well(place, u, to)
        }
        CoreTerm::Many { from, to, .. } => names_well(place, u, from) && names_well(place, u, to),
        CoreTerm::Pick { cases, other } => {
            cases_name_well(place, u, cases.as_slice()) && slot_names_well(place, u, other)
        }
    }
}

fn is_good_term(place: &AltPlace<'_>, u: usize, term: &CoreTerm) -> bool
    ensures { result ≡ spec.is_good_term (grammar_of place.now) place.now.at place.now.holder place.now.terms.now u term.now }
{
    has_good_shape(place, term) && calls_well(place, term) && term_names_well(place, u, term)
}

/// Whether each term names and calls what it may.
pub(crate) fn has_good_terms(place: &AltPlace<'_>) -> bool
    ensures { result ≡ spec.all_from (spec.is_good_term (grammar_of place.now) place.now.at place.now.holder place.now.terms.now) 0 place.now.terms.now }
{
    for (u, term) in place.terms.iter().enumerate() {
        if !is_good_term(place, u, term) {
            return false;
        }
    }
    true
}
