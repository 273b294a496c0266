//! Which terms of a holder matter to a caller.

ghost use Rattle.std.specs.Prelude.{◌≡◌, IfOk, slice_get, length, List, map, Option, false, option_copied};
ghost use Rattle.ipg_core.specs.declared.grammar.CoreTerm.{CoreTerm};
ghost use Rattle.std.specs.List.{list_any};
ghost use Rattle.ipg_facts_holder.specs.Calling as calling;
ghost use Rattle.ipg_facts_holder.specs.Holder as spec;
ghost use Rattle.ipg_facts_holder.specs.Outers as outers;

use crate::calling::calls_some;
use crate::mention::{Ask, mentions_some};
use crate::outers::outers;
use ipg_core::accepted::Core;
use ipg_core::grammar::{CoreAlt, CoreRule, CoreTerm};
use ipg_num::item_at;
use std::alloc::{AllocError, Global};

fn set_by(term: &CoreTerm) -> Option<u32>
    ensures { result ≡ spec.set_by (Some term.now) }
{
    match term {
        CoreTerm::Set { attr, value: _ } => Some(*attr),
        _ => None,
    }
}

fn set_at(terms: &[CoreTerm], term: u32) -> Option<u32>
    ensures { result ≡ spec.set_by (slice_get terms.now term) }
{
    match item_at(terms, term as usize) {
        None => None,
        Some(term) => set_by(term),
    }
}

#[tactic(auto, unfolding(crate::specs::Holder::reads_term), using(crate::proofs::Marking::marked_calls))]
fn reads_term(g: &Core, attr: u32, marks: &[bool], term: &CoreTerm) -> bool
    ensures { result ≡ spec.reads_term g.now attr marks.now term.now }
{
    mentions_some(Ask::Outer(attr), term) || calls_some(g, None, Some(marks), term)
}

fn reads_alt(g: &Core, attr: u32, marks: &[bool], alt: &CoreAlt) -> bool
    ensures { result ≡ list_any (spec.reads_term g.now attr marks.now) alt.now.terms }
{
    alt.terms
        .as_slice()
        .iter()
        .any(|term| reads_term(g, attr, marks, term))
}

#[tactic(auto, unfolding(crate::specs::Holder::reads_next))]
fn reads_next(g: &Core, attr: u32, marks: &[bool], rule: &CoreRule) -> bool
    ensures { result ≡ spec.reads_next g.now attr marks.now rule.now }
{
    rule.alts
        .as_slice()
        .iter()
        .any(|alt| reads_alt(g, attr, marks, alt))
}

fn next_readers(alloc: Global, g: &Core, attr: u32, marks: &[bool]) -> Result<Vec<bool>, AllocError>
    ensures { IfOk result (λ next. next.items ≡ map (spec.reads_next g.now attr marks.now) g.now.rules) }
{
    let mut next = Vec::with_capacity(alloc, g.rules().len())?;
    for rule in g.rules() {
        next.push(reads_next(g, attr, marks, rule))?;
    }
    Ok(next)
}

fn no_readers(alloc: Global, g: &Core) -> Result<Vec<bool>, AllocError>
    ensures { IfOk result (λ none. none.items ≡ map (λ rule. false) g.now.rules) }
{
    let mut none = Vec::with_capacity(alloc, g.rules().len())?;
    for _rule in g.rules() {
        none.push(false)?;
    }
    Ok(none)
}

/// The rules that read the holder's attribute, themselves or through local rules that they call.
fn readers(alloc: Global, g: &Core, attr: u32) -> Result<Vec<bool>, AllocError>
    ensures { IfOk result (λ marks. marks.items ≡ spec.readers g.now attr (length g.now.rules)) }
{
    let mut marks = no_readers(alloc, g)?;
    for _round in 0..g.rules().len() {
        let next = next_readers(alloc, g, attr, marks.as_slice())?;
        if next.as_slice() == marks.as_slice() {
            return Ok(marks);
        }
        marks = next;
    }
    Ok(marks)
}

fn readers_of(alloc: Global, g: &Core, attr: Option<u32>) -> Result<Vec<bool>, AllocError>
    ensures { IfOk result (λ marks. marks.items ≡ spec.readers_of g.now attr) }
{
    match attr {
        None => Ok(Vec::new(alloc)),
        Some(attr) => readers(alloc, g, attr),
    }
}

/// The alternative whose terms may matter.
#[derive(Clone, Copy)]
struct Holder<'a> {
    grammar: &'a Core,
    at: (u32, u32),
    terms: &'a [CoreTerm],
}

/// A term that may be a provider: its number, and the attribute that it sets, if it sets one.
#[derive(Clone, Copy)]
struct Provider {
    term: u32,
    sets: Option<u32>,
}

/// Whether a term needs the provider, whatever local rules it calls.
fn needs(of: Provider, term: Option<&CoreTerm>) -> bool
    ensures { result ≡ spec.needs of.term of.sets (option_copied term.entry) }
{
    match term {
        None => false,
        Some(term) => mentions_some(Ask::Needs(of.term, of.sets), term),
    }
}

fn some_need(terms: &[CoreTerm], of: Provider, behind: &[u32]) -> bool
    ensures { result ≡ list_any (λ w. spec.needs of.term of.sets (slice_get terms.now w)) behind.now }
{
    behind
        .iter()
        .any(|term| needs(of, item_at(terms, *term as usize)))
}

/// Whether a term calls a local rule of the alternative, marked or not.
fn calls_one(holder: Holder, term: Option<&CoreTerm>) -> bool
    ensures { result ≡ calling.calls_one holder.entry.grammar.now holder.entry.at (option_copied term.entry) }
{
    match term {
        None => false,
        Some(term) => calls_some(holder.grammar, Some(holder.at), None, term),
    }
}

fn some_call(holder: Holder, behind: &[u32]) -> bool
    ensures { result ≡ list_any (λ w. calling.calls_one holder.entry.grammar.now holder.entry.at (slice_get holder.entry.terms.now w)) behind.now }
{
    behind.iter().any(|term| calls_one(holder, item_at(holder.terms, *term as usize)))
}

#[tactic(auto, unfolding(crate::specs::Holder::provides), using(crate::proofs::Marking::marked_calls))]
fn provides(holder: Holder, of: Provider, marks: &[bool], term: Option<&CoreTerm>) -> bool
    requires { marks.now ≡ spec.readers_of holder.grammar.now of.sets }
    ensures { result ≡ spec.provides holder.entry.grammar.now holder.entry.at of.term of.sets (option_copied term.entry) }
{
    match term {
        None => false,
        Some(term) => {
            mentions_some(Ask::Needs(of.term, of.sets), term)
                || calls_some(holder.grammar, Some(holder.at), Some(marks), term)
        }
    }
}

fn provides_some(holder: Holder, of: Provider, marks: &[bool], behind: &[u32]) -> bool
    requires { marks.now ≡ spec.readers_of holder.grammar.now of.sets }
    ensures { result ≡ list_any (λ w. spec.provides holder.entry.grammar.now holder.entry.at of.term of.sets (slice_get holder.entry.terms.now w)) behind.now }
{
    behind.iter().any(|term| provides(holder, of, marks, item_at(holder.terms, *term as usize)))
}

/// Whether the caller mentions an attribute of its holder.
pub fn mentions_holder(caller: &[CoreTerm]) -> bool
    ensures { result ≡ list_any (spec.mentions_some Ask.AnyOuter) caller.now }
{
    caller.iter().any(|term| mentions_some(Ask::AnyOuter, term))
}

fn is_wanted(wanted: &[u32], attr: Option<u32>) -> bool
    ensures { result ≡ outers.is_among wanted.now attr }
{
    match attr {
        None => false,
        Some(attr) => wanted.contains(&attr),
    }
}

/// What is mentioned is looked for first: to find the readers of an attribute takes rounds over all rules. Where no local rule is called
/// from behind, nothing reads it so.
#[tactic(auto, unfolding(crate::specs::Outers::matters_by), using(crate::proofs::Needs::needed_matters, crate::proofs::Needs::none_matters))]
fn matters(
    alloc: Global,
    holder: Holder,
    wanted: &[u32],
    term: u32,
    behind: &[u32],
) -> Result<bool, AllocError>
    ensures { IfOk result (λ matters. matters ≡ outers.matters_by holder.entry.grammar.now holder.entry.at holder.entry.terms.now wanted.now term behind.now) }
{
    let of = Provider {
        term,
        sets: set_at(holder.terms, term),
    };
    if is_wanted(wanted, of.sets) {
        return Ok(true);
    }
    if some_need(holder.terms, of, behind) {
        return Ok(true);
    }
    if !some_call(holder, behind) {
        return Ok(false);
    }
    let marks = readers_of(alloc, holder.grammar, of.sets)?;
    Ok(provides_some(holder, of, marks.as_slice(), behind))
}

fn kept_of(
    alloc: Global,
    holder: Holder,
    wanted: &[u32],
    order: &[u32],
) -> Result<Vec<u32>, AllocError>
    ensures { IfOk result (λ kept. (caller : List CoreTerm) → wanted.now ≡ outers.outers caller
        → kept.items ≡ spec.kept holder.entry.grammar.now holder.entry.at holder.entry.terms.now caller order.now) }
{
    let mut behind = Vec::new(alloc);
    for place in (0..order.len()).rev() {
        let term = order[place];
        if matters(alloc, holder, wanted, term, behind.as_slice())? {
            behind.insert(0, term)?;
        }
    }
    Ok(behind)
}

/// The holder's terms that matter, in their order.
pub fn kept(
    alloc: Global,
    g: &Core,
    at: (u32, u32),
    holder: &CoreAlt,
    caller: &[CoreTerm],
) -> Result<Vec<u32>, AllocError>
    ensures { IfOk result (λ kept. kept.items ≡ spec.kept g.now at holder.now.terms caller.now holder.now.order) }
{
    let found = Holder {
        grammar: g,
        at,
        terms: holder.terms.as_slice(),
    };
    let wanted = outers(alloc, caller)?;
    kept_of(alloc, found, wanted.as_slice(), holder.order.as_slice())
}
