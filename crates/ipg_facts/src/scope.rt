//! An alternative whose expressions are read.

ghost use Rattle.std.specs.Prelude.{◌≡◌, IfOk, slice_get};
ghost use Rattle.std.specs.Option.{option_copied};
ghost use Rattle.ipg_facts.specs.Reading as spec;
ghost use Rattle.ipg_facts.specs.View.{scope_of};

use crate::bounds::Bounds;
use crate::edition::Edition;
use ipg_core::grammar::{CoreTerm, Name, Primitive, Sym};
use ipg_facts_forms::{Form, mention, number};
use ipg_facts_holder::is_marked;
use ipg_facts_variables::{Side, whole};
use ipg_num::item_at;
use std::alloc::{AllocError, Global};

/// The caller's alternative, or its holder's.
#[derive(Drop)]
pub struct Scope<'a> {
    pub edition: Edition,
    pub side: Side,
    /// The names of attributes, by their numbers.
    pub names: &'a [Name],
    /// Which rules must touch.
    pub marks: &'a [bool],
    pub terms: &'a [CoreTerm],
    /// The bounds of the arrays that have run, by their terms.
    pub arrays: Vec<Option<Bounds>>,
}

pub fn length_of(alloc: Global, scope: &Scope) -> Result<Form, AllocError>
    ensures { IfOk result (λ form. form ≡ spec.length_of (scope_of scope.now)) }
{
    mention(alloc, whole(scope.side), Vec::new(alloc))
}

pub fn nought(alloc: Global) -> Form
    ensures { result ≡ spec.nought }
{
    number(alloc, 0)
}

/// The bytes that an item touches at least: a number its width, a rule that must touch one.
pub fn sym_width(marks: &[bool], sym: &Sym) -> u64
    ensures { result ≡ spec.least_width marks.now (Some sym.now) }
{
    match sym {
        Sym::Text(_) => 0,
        Sym::Prim(prim) => u64::from(prim.width()),
        Sym::Rule(rule) => { if is_marked(marks, *rule) { 1 } else { 0 } }
    }
}

pub fn least_width(marks: &[bool], item: Option<&Sym>) -> u64
    ensures { result ≡ spec.least_width marks.now (option_copied item.entry) }
{
    match item {
        None => 0,
        Some(sym) => sym_width(marks, sym),
    }
}

fn item_of(term: &CoreTerm) -> Option<&Sym>
    ensures { option_copied result ≡ spec.item_of (Some term.now) }
{
    match term {
        CoreTerm::Repeat {
            first: _,
            last: _,
            item,
            from: _,
            to: _,
        } => Some(item),
        CoreTerm::Many {
            item,
            from: _,
            to: _,
        } => Some(item),
        CoreTerm::Slot(_) => None,
        CoreTerm::Set { attr: _, value: _ } => None,
        CoreTerm::Test(_) => None,
        CoreTerm::Pick { cases: _, other: _ } => None,
    }
}

/// The symbol of an array's or a repetition's items.
pub fn item_sym<'a>(terms: &'a [CoreTerm], term: u32) -> Option<&'a Sym>
    ensures { option_copied result ≡ spec.item_of (slice_get terms.now term) }
{
    match item_at(terms, term as usize) {
        None => None,
        Some(term) => item_of(term),
    }
}

/// The greatest value of a number's attribute.
pub fn greatest(prim: Primitive, name: &[u8]) -> Option<u64>
    ensures { result ≡ spec.greatest prim name.now }
{
    match prim {
        Primitive::U8 => whole_greatest(255, name),
        Primitive::U16LE => whole_greatest(65535, name),
        Primitive::U16BE => whole_greatest(65535, name),
        Primitive::U32LE => whole_greatest(4294967295, name),
        Primitive::U32BE => whole_greatest(4294967295, name),
        Primitive::U64LE => half_greatest(name),
        Primitive::U64BE => half_greatest(name),
        Primitive::Bytes => None,
    }
}

fn whole_greatest(most: u64, name: &[u8]) -> Option<u64>
    ensures { result ≡ spec.whole_greatest most name.now }
{
    if name == b"val".as_slice() {
        Some(most)
    } else {
        None
    }
}

fn half_greatest(name: &[u8]) -> Option<u64>
    ensures { result ≡ spec.half_greatest name.now }
{
    if name == b"hi".as_slice() {
        Some(4294967295)
    } else if name == b"lo".as_slice() {
        Some(4294967295)
    } else {
        None
    }
}

pub fn greatest_of(item: Option<&Sym>, name: &[u8]) -> Option<u64>
    ensures { result ≡ spec.greatest_of (option_copied item.entry) name.now }
{
    match item {
        Some(Sym::Prim(prim)) => greatest(*prim, name),
        Some(Sym::Text(_)) => None,
        Some(Sym::Rule(_)) => None,
        None => None,
    }
}
