//! Where a term stands in a text.
ghost use Rattle.std.specs.Prelude.{◌≡◌, ◌+◌, length, flat_map, slice_get, MatchResult, Some};
ghost use Rattle.std.specs.Option.{option_copied, option_map};
ghost use Rattle.ipg_app_explain.specs.Terms as spec;
ghost use Rattle.ipg_app_explain.specs.Terms.{all_rules, locals_of, family, term_at, begin_of, branch_or, call_of};

use ipg_ast::{Alt, Case, Grammar, Rule, Slot, Term};
use ipg_num::item_at;

/// A term by number: that of its rule in the order of the heads, that of its alternative, and its own, each from 0.
#[derive(Clone, Copy, Debug, PartialEq, Eq)]
pub struct TermAt {
    pub rule: u32,
    pub alt: u32,
    pub term: u32,
}

/// A rule by its number among these, or how far the number lies past them.
fn in_locals(locals: &[Rule], number: usize) -> Result<&Rule, usize>
    ensures { MatchResult result (λ found. slice_get locals.now number ≡ Some found.now) (λ rest. number ≡ length locals.now + rest) }
{
    if number < locals.len() {
        return Ok(&locals[number]);
    }
    Err(number - locals.len())
}

/// The same of a local rule of these alternatives.
fn local_at(alts: &[Alt], number: usize) -> Result<&Rule, usize>
    ensures { MatchResult result (λ found. slice_get (flat_map locals_of alts.now) number ≡ Some found.now)
        (λ rest. number ≡ length (flat_map locals_of alts.now) + rest) }
{
    let mut rest = number;
    for alt in alts {
        match in_locals(alt.locals.as_slice(), rest) {
            Ok(found) => return Ok(found),
            Err(more) => rest = more,
        }
    }
    Err(rest)
}

/// The same of a global rule and its local ones.
fn in_family(rule: &Rule, number: usize) -> Result<&Rule, usize>
    ensures { MatchResult result (λ found. slice_get (family rule.now) number ≡ Some found.now)
        (λ rest. number ≡ length (family rule.now) + rest) }
{
    match number.checked_sub(1) {
        None => Ok(rule),
        Some(local) => local_at(rule.alts.as_slice(), local),
    }
}

/// The same of global rules and their local ones.
fn in_families(rules: &[Rule], number: usize) -> Option<&Rule>
    ensures { option_copied result ≡ slice_get (flat_map family rules.now) number }
{
    let mut rest = number;
    for rule in rules {
        match in_family(rule, rest) {
            Ok(found) => return Some(found),
            Err(more) => rest = more,
        }
    }
    None
}

/// A rule by its number, from 0 in the order of the heads, where a local rule stands behind its holder's head; None where
/// there is no such rule.
pub fn rule_at(g: &Grammar, number: u32) -> Option<&Rule>
    ensures { option_copied result ≡ slice_get (all_rules g.now) number }
{
    in_families(g.rules.as_slice(), number as usize)
}

pub fn term_at(g: &Grammar, at: TermAt) -> Option<&Term>
    ensures { option_copied result ≡ term_at g.now at.rule at.alt at.term }
{
    let rule = rule_at(g, at.rule)?;
    let alt = item_at(rule.alts.as_slice(), at.alt as usize)?;
    item_at(alt.terms.as_slice(), at.term as usize)
}

fn begin_of(term: &Term) -> u32
    ensures { result ≡ begin_of term.now }
{
    match term {
        Term::Slot(slot) => slot.span.from,
        Term::Set { name, .. } => name.span.from,
        Term::Test { at, .. } => at.from,
        Term::Repeat { var, .. } => var.span.from,
        Term::Many { at, .. } => at.from,
        Term::Pick { at, .. } => at.from,
    }
}

/// The slot of a case, or the one behind `else`.
pub fn branch_or<'a>(found: Option<&'a Case>, other: &'a Slot) -> &'a Slot
    ensures { result.now ≡ branch_or (option_copied found.entry) other.now }
{
    match found {
        Some(case) => &case.slot,
        None => other,
    }
}

fn call_of(term: &Term, branch: u64) -> u32
    ensures { result ≡ call_of branch term.now }
{
    match term {
        Term::Repeat { item, .. } => item.span.from,
        Term::Many { item, .. } => item.span.from,
        Term::Pick { cases, other, .. } => {
            branch_or(item_at(cases.as_slice(), branch as usize), other)
                .span
                .from
        }
        _ => begin_of(term),
    }
}

/// Where the term begins, in bytes of the text that reads as the grammar: an attribute with its name, an array with its variable.
/// Nothing where there is no such term.
pub fn term_place(g: &Grammar, at: TermAt) -> Option<u32>
    ensures { result ≡ spec.term_place g.now at.rule at.alt at.term }
{
    match term_at(g, at) {
        Some(term) => Some(begin_of(term)),
        None => None,
    }
}

/// Where what the term calls is named, in bytes: its item, or the slot of the branch.
pub fn call_place(g: &Grammar, at: TermAt, branch: u32) -> Option<u32>
    ensures { result ≡ spec.call_place g.now at.rule at.alt at.term branch }
{
    place_in(term_at(g, at), u64::from(branch))
}

/// The same of a term, if there is one.
pub fn place_in(term: Option<&Term>, branch: u64) -> Option<u32>
    ensures { result ≡ option_map (call_of branch) (option_copied term.entry) }
{
    match term {
        Some(term) => Some(call_of(term, branch)),
        None => None,
    }
}
