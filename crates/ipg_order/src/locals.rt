//! What local rules read of their holders, through others too.

ghost use Rattle.std.specs.Prelude.{◌≡◌, ◌≤◌, ◌<◌, ◌++◌, length, flat_map, slice_get, IfOk, IfSome, OnOk};
ghost use Rattle.ipg_order.specs.Locals as spec;
ghost use Rattle.ipg_order.specs.Locals.{IsFew};

use crate::callees::callees_in;
use crate::closure::{Hand, ROW};
use crate::named::{Named, named_in};
use ipg_complete::completed::{CompletedAlt, CompletedRule};
use ipg_core::grammar::CoreTerm;
use ipg_num::item_at;
use std::alloc::{AllocError, Global};

/// The first term that sets an attribute.
pub(crate) fn setter(terms: &[CoreTerm], attr: u32) -> Option<u32>
    requires { length terms.now ≤ 256 }
    ensures first { result ≡ spec.setter 0 terms.now attr }
    ensures below { IfSome result (λ v. v < length terms.now) }
{
    for (number, term) in terms.iter().enumerate() {
        if sets(term, attr) {
            return Some(number as u32);
        }
    }
    None
}

fn sets(term: &CoreTerm, attr: u32) -> bool
    ensures { result ≡ spec.sets term.now attr }
{
    match term {
        CoreTerm::Set {
            attr: set,
            value: _,
        } => *set == attr,
        CoreTerm::Slot(_) => false,
        CoreTerm::Test(_) => false,
        CoreTerm::Repeat { .. } => false,
        CoreTerm::Many { .. } => false,
        CoreTerm::Pick { .. } => false,
    }
}

/// The terms of the alternative at a place; none where there is none.
fn terms_at(rules: &[CompletedRule], at: (u32, u32)) -> &[CoreTerm]
    ensures { result.now ≡ spec.terms_at rules.now at }
{
    match item_at(rules, at.0 as usize) {
        Some(rule) => terms_of(rule.alts.as_slice(), at.1),
        None => &[],
    }
}

fn terms_of(alts: &[CompletedAlt], alt: u32) -> &[CoreTerm]
    ensures { result.now ≡ spec.terms_of alts.now alt }
{
    match item_at(alts, alt as usize) {
        Some(alt) => alt.terms.as_slice(),
        None => &[],
    }
}

/// The places of the flags of what local rules read themselves.
pub(crate) fn all_keys(alloc: Global, rules: &[CompletedRule]) -> Result<Vec<u32>, AllocError>
    requires { IsFew rules.now }
    ensures { IfOk result (λ keys. keys.items ≡ spec.all_keys rules.now) }
{
    let mut keys = Vec::new(alloc);
    for (number, rule) in rules.iter().enumerate() {
        if let Some(holder) = rule.holder {
            let terms = terms_at(rules, holder);
            add_alts_keys(alloc, &mut keys, terms, number as u32, rule.alts.as_slice())?;
        }
    }
    Ok(keys)
}

fn add_alts_keys(
    alloc: Global,
    keys: &mut Vec<u32>,
    terms: &[CoreTerm],
    rule: u32,
    alts: &[CompletedAlt],
) -> Result<(), AllocError>
    requires { (length terms.now ≤ 256) × (rule < 1024) }
    ensures { OnOk result (keys.new.items ≡ keys.old.items ++ flat_map (spec.alt_keys terms.now rule) alts.now) }
{
    for alt in alts {
        add_terms_keys(alloc, keys, terms, rule, alt.terms.as_slice())?;
    }
    Ok(())
}

fn add_terms_keys(
    alloc: Global,
    keys: &mut Vec<u32>,
    terms: &[CoreTerm],
    rule: u32,
    of: &[CoreTerm],
) -> Result<(), AllocError>
    requires { (length terms.now ≤ 256) × (rule < 1024) }
    ensures { OnOk result (keys.new.items ≡ keys.old.items ++ flat_map (spec.term_keys terms.now rule) of.now) }
{
    for term in of {
        let names = named_in(alloc, term)?;
        add_names_keys(keys, terms, rule, names.as_slice())?;
    }
    Ok(())
}

fn add_names_keys(
    keys: &mut Vec<u32>,
    terms: &[CoreTerm],
    rule: u32,
    names: &[Named],
) -> Result<(), AllocError>
    requires { (length terms.now ≤ 256) × (rule < 1024) }
    ensures { OnOk result (keys.new.items ≡ keys.old.items ++ flat_map (spec.name_keys terms.now rule) names.now) }
{
    for name in names {
        add_name_key(keys, terms, rule, *name)?;
    }
    Ok(())
}

fn add_name_key(
    keys: &mut Vec<u32>,
    terms: &[CoreTerm],
    rule: u32,
    name: Named,
) -> Result<(), AllocError>
    requires { (length terms.now ≤ 256) × (rule < 1024) }
    ensures { OnOk result (keys.new.items ≡ keys.old.items ++ spec.name_keys terms.now rule name) }
{
    let Named::Outer(attr) = name else {
        return Ok(());
    };
    let Some(term) = setter(terms, attr) else {
        return Ok(());
    };
    keys.push(rule * ROW as u32 + term)?;
    Ok(())
}

/// The calls of local rules by local rules.
pub(crate) fn all_hands(alloc: Global, rules: &[CompletedRule]) -> Result<Vec<Hand>, AllocError>
    requires { IsFew rules.now }
    ensures { IfOk result (λ hands. hands.items ≡ spec.all_hands rules.now) }
{
    let mut hands = Vec::new(alloc);
    for (number, rule) in rules.iter().enumerate() {
        if rule.holder.is_some() {
            add_alts_hands(
                alloc,
                &mut hands,
                rules,
                number as u32,
                rule.alts.as_slice(),
            )?;
        }
    }
    Ok(hands)
}

fn add_alts_hands(
    alloc: Global,
    hands: &mut Vec<Hand>,
    rules: &[CompletedRule],
    rule: u32,
    alts: &[CompletedAlt],
) -> Result<(), AllocError>
    ensures { OnOk result (hands.new.items ≡ hands.old.items ++ flat_map (spec.alt_hands rules.now rule) alts.now) }
{
    for alt in alts {
        add_terms_hands(alloc, hands, rules, rule, alt.terms.as_slice())?;
    }
    Ok(())
}

fn add_terms_hands(
    alloc: Global,
    hands: &mut Vec<Hand>,
    rules: &[CompletedRule],
    rule: u32,
    terms: &[CoreTerm],
) -> Result<(), AllocError>
    ensures { OnOk result (hands.new.items ≡ hands.old.items ++ flat_map (spec.term_hands rules.now rule) terms.now) }
{
    for term in terms {
        add_term_hands(alloc, hands, rules, rule, term)?;
    }
    Ok(())
}

fn add_term_hands(
    alloc: Global,
    hands: &mut Vec<Hand>,
    rules: &[CompletedRule],
    rule: u32,
    term: &CoreTerm,
) -> Result<(), AllocError>
    ensures { OnOk result (hands.new.items ≡ hands.old.items ++ spec.term_hands rules.now rule term.now) }
{
    let callees = callees_in(alloc, term)?;
    add_hands(hands, rules, rule, callees.as_slice())
}

fn add_hands(
    hands: &mut Vec<Hand>,
    rules: &[CompletedRule],
    rule: u32,
    callees: &[u32],
) -> Result<(), AllocError>
    ensures { OnOk result (hands.new.items ≡ hands.old.items ++ flat_map (spec.hands_to rules.now rule) callees.now) }
{
    for callee in callees {
        add_hand(hands, rules, rule, *callee)?;
    }
    Ok(())
}

fn add_hand(
    hands: &mut Vec<Hand>,
    rules: &[CompletedRule],
    rule: u32,
    callee: u32,
) -> Result<(), AllocError>
    ensures { OnOk result (hands.new.items ≡ hands.old.items ++ spec.hands_to rules.now rule callee) }
{
    if !is_local(rules, callee) {
        return Ok(());
    }
    hands.push(Hand {
        caller: rule,
        callee,
    })?;
    Ok(())
}

fn is_local(rules: &[CompletedRule], rule: u32) -> bool
    ensures { result ≡ spec.is_local (slice_get rules.now rule) }
{
    match item_at(rules, rule as usize) {
        Some(rule) => rule.holder.is_some(),
        None => false,
    }
}
