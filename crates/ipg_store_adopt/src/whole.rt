//! Whether rules and names are a well-formed grammar.

ghost use Rattle.std.specs.Prelude.{◌≡◌, IfOk};
ghost use Rattle.std.specs.List.{list_all, AllByRecursion};
ghost use Rattle.ipg_store_body.specs.Fits.{NestsRule};
ghost use Rattle.std.specs.Option.{option_copied};
ghost use Rattle.std.specs.Bool.{Decides};
ghost use Rattle.ipg_core.specs.Good.{WellFormed};
ghost use Rattle.ipg_store_adopt.specs.WellFormed as spec;

use crate::attrs::sets_once;
use crate::laws::tells_well_formed;
use crate::place::{AltPlace, has_good_terms};
use crate::slots::has_few_slots;
use ipg_core::grammar::{CoreAlt, CoreRule, Name};
use ipg_num::item_at;
use std::alloc::{AllocError, Global};
use std::collections::HashSet;

fn is_global(holder: Option<(u32, u32)>) -> bool
    ensures { result ≡ spec.is_global holder }
{
    holder.is_none()
}

fn starts_global(rules: &[CoreRule]) -> bool
    ensures { result ≡ spec.starts_global rules.now }
{
    match rules.first() {
        None => false,
        Some(rule) => is_global(rule.holder),
    }
}

fn has_global_alt(rule: Option<&CoreRule>, alt: u32) -> bool
    ensures { result ≡ spec.has_global_alt (option_copied rule.entry) alt }
{
    match rule {
        None => false,
        Some(rule) => (alt as usize) < rule.alts.len() && is_global(rule.holder),
    }
}

fn is_holder(rules: &[CoreRule], names: &[Name], holder: Option<(u32, u32)>) -> bool
    ensures { result ≡ spec.is_holder (record { rules = rules.now; names = names.now }) holder }
{
    match holder {
        None => true,
        Some((rule, alt)) => has_global_alt(item_at(rules, rule as usize), alt),
    }
}

fn have_holders(rules: &[CoreRule], names: &[Name]) -> bool
    ensures { result ≡ list_all (λ rule. spec.is_holder (record { rules = rules.now; names = names.now }) rule.holder) rules.now }
{
    rules
        .iter()
        .all(|rule| is_holder(rules, names, rule.holder))
}

fn is_good_rule(rule: &CoreRule) -> bool
    ensures { result ≡ spec.is_good_rule rule.now }
{
    0 < rule.alts.len() && rule.alts.len() <= 64
}

fn is_small_alt(alt: &CoreAlt) -> bool
    ensures { result ≡ spec.is_small_alt alt.now }
{
    0 < alt.terms.len() && alt.terms.len() <= 256 && sets_once(alt.terms.as_slice())
}

fn has_small_alts(rule: &CoreRule) -> bool
    ensures { result ≡ spec.has_small_alts rule.now }
{
    rule.alts.as_slice().iter().all(|alt| is_small_alt(alt))
}

fn has_good_alts(rules: &[CoreRule], names: &[Name], number: usize, rule: &CoreRule) -> bool
    ensures { result ≡ spec.has_good_alts (record { rules = rules.now; names = names.now }) number rule.now }
{
    for (at, alt) in rule.alts.as_slice().iter().enumerate() {
        let place = AltPlace {
            rules,
            names,
            at: (number, at),
            holder: rule.holder,
            terms: alt.terms.as_slice(),
        };
        if !has_good_terms(&place) {
            return false;
        }
    }
    true
}

fn have_good_alts(rules: &[CoreRule], names: &[Name]) -> bool
    ensures { result ≡ spec.all_from (spec.has_good_alts (record { rules = rules.now; names = names.now })) 0 rules.now }
{
    for (number, rule) in rules.iter().enumerate() {
        if !has_good_alts(rules, names, number, rule) {
            return false;
        }
    }
    true
}

fn bytes_of(name: &Name) -> &[u8]
    ensures { result.now ≡ name.now }
{
    name.as_slice()
}

/// Whether no two names are alike, by a table of them.
fn all_differ(alloc: Global, names: &[Name]) -> Result<bool, AllocError>
    ensures { IfOk result (λ differ. differ ≡ spec.all_differ names.now) }
{
    let distinct: HashSet<&[u8]> = names.iter().map(|name| bytes_of(name)).collect(alloc)?;
    Ok(distinct.len() == names.len())
}

/// What is asked of the rules.
fn have_good_rules(rules: &[CoreRule], names: &[Name]) -> bool
    ensures { result ≡ spec.has_good_rules (record { rules = rules.now; names = names.now }) }
{
    starts_global(rules)
        && rules.len() <= 1024
        && are_good(rules)
        && have_small_alts(rules)
        && have_good_alts(rules, names)
        && have_holders(rules, names)
}

fn are_good(rules: &[CoreRule]) -> bool
    ensures { result ≡ list_all spec.is_good_rule rules.now }
{
    rules.iter().all(|rule| is_good_rule(rule))
}

fn have_small_alts(rules: &[CoreRule]) -> bool
    ensures { result ≡ list_all spec.has_small_alts rules.now }
{
    rules.iter().all(|rule| has_small_alts(rule))
}

fn test(alloc: Global, rules: &[CoreRule], names: &[Name]) -> Result<bool, AllocError>
    ensures { IfOk result (λ is. is ≡ spec.is_well_formed (record { rules = rules.now; names = names.now })) }
{
    if !have_good_rules(rules, names) || names.len() >= 1 << 32 || !has_few_slots(rules) {
        return Ok(false);
    }
    all_differ(alloc, names)
}

/// Whether the rules and the names are a well-formed grammar, whatever the orders of their terms. It goes as deep as
/// expressions nest, which is 400 at most, and takes memory for a table of the names alone.
///
/// # Errors
/// No memory was left for the table.
pub fn is_well_formed(alloc: Global, rules: &[CoreRule], names: &[Name]) -> Result<bool, AllocError>
    requires nests { AllByRecursion NestsRule rules.now }
    ensures { IfOk result (λ is. Decides is (WellFormed (record { rules = rules.now; names = names.now }))) }
{
    let is = test(alloc, rules, names)?;
    tells_well_formed();
    Ok(is)
}
