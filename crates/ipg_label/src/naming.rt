//! The name of a term: what the attributes that read it, and nothing else, say of it.

ghost use Rattle.std.specs.Prelude.{◌≡◌, ◌≤◌, length};
ghost use Rattle.ipg_core.specs.Grammar.{name_at};
ghost use Rattle.ipg_label.specs.Naming as spec;
ghost use Rattle.ipg_label.specs.declared.naming.Naming.TheVariants as naming;

use crate::reading::{Reading, What, read};
use ipg_core::grammar::{CoreTerm, Name};
use ipg_num::item_at;

/// A name: the first `long` bytes of that of an attribute.
#[derive(Clone, Copy, Debug, PartialEq, Eq)]
pub struct Label {
    pub attr: u32,
    pub long: usize,
}

/// What is known of a term's name: the first attribute that reads it with what that reads, and the first that reads
/// something else of it.
#[derive(Clone, Copy, Debug)]
pub(crate) enum Naming {
    Nothing,
    One(u32, What),
    Two(u32, What, u32),
}

fn same_what(a: What, b: What) -> bool
    ensures { result ≡ spec.same_what a b }
{
    match (a, b) {
        (What::Number(a), What::Number(b)) => a == b,
        (What::Part(a), What::Part(b)) => a == b,
        (What::Joined, What::Joined) => true,
        _ => false,
    }
}

/// With one attribute more that reads the term.
fn named_by(so_far: Naming, attr: u32, what: What) -> Naming
    ensures { result ≡ spec.named_by so_far attr what }
{
    match so_far {
        Naming::Nothing => Naming::One(attr, what),
        Naming::One(first, of) => {
            if same_what(of, what) {
                Naming::One(first, of)
            } else {
                Naming::Two(first, of, attr)
            }
        }
        Naming::Two(first, of, other) => Naming::Two(first, of, other),
    }
}

/// With an attribute and what it reads, where that is of the term.
fn with_read(term: usize, so_far: Naming, attr: u32, reading: Option<Reading>) -> Naming
    ensures { result ≡ spec.with_read term so_far attr reading }
{
    match reading {
        Some(reading) => {
            if reading.term as usize == term {
                named_by(so_far, attr, reading.what)
            } else {
                so_far
            }
        }
        None => so_far,
    }
}

fn with_term(names: &[Name], term: usize, so_far: Naming, one: &CoreTerm) -> Naming
    ensures { result ≡ spec.with_term names.now term so_far one.now }
{
    match one {
        CoreTerm::Set { attr, value } => with_read(term, so_far, *attr, read(names, value)),
        _ => so_far,
    }
}

fn naming_of(names: &[Name], term: usize, terms: &[CoreTerm]) -> Naming
    ensures { result ≡ spec.naming_of names.now term naming.Nothing terms.now }
{
    let mut so_far = Naming::Nothing;
    let mut left = terms;
    while let Some((one, more)) = left.split_first() {
        so_far = with_term(names, term, so_far, one);
        left = more;
    }
    so_far
}

/// The name of an attribute.
fn name_of_attr(names: &[Name], attr: u32) -> &[u8]
    ensures { result.now ≡ name_at names.now attr }
{
    match item_at(names, attr as usize) {
        Some(name) => name.as_slice(),
        None => &[],
    }
}

/// How many bytes two names begin alike.
fn alike(a: &[u8], b: &[u8]) -> usize
    ensures value { result ≡ spec.alike a.now b.now }
    ensures small { result ≤ length a.now }
{
    let mut long = 0;
    while long < a.len() && long < b.len() && a[long] == b[long] {
        long += 1;
    }
    long
}

fn whole_name(names: &[Name], attr: u32) -> Label
    ensures { result ≡ spec.whole_name names.now attr }
{
    Label {
        attr,
        long: name_of_attr(names, attr).len(),
    }
}

/// So many bytes of the name, or all where they are none.
fn beginning(names: &[Name], attr: u32, long: usize) -> Label
    ensures { result ≡ spec.beginning names.now attr long }
{
    if long == 0 {
        whole_name(names, attr)
    } else {
        Label { attr, long }
    }
}

fn name_of_two(names: &[Name], first: u32, of: What, other: u32) -> Option<Label>
    ensures { result ≡ spec.name_of_two names.now first of other }
{
    match of {
        What::Part(_) => None,
        _ => {
            let long = alike(name_of_attr(names, first), name_of_attr(names, other));
            Some(beginning(names, first, long))
        }
    }
}

fn name_of(names: &[Name], naming: Naming) -> Option<Label>
    ensures { result ≡ spec.name_of names.now naming }
{
    match naming {
        Naming::Nothing => None,
        Naming::One(first, _) => Some(whole_name(names, first)),
        Naming::Two(first, of, other) => name_of_two(names, first, of, other),
    }
}

/// The name of the term of that number among those of an alternative.
pub fn label_at(names: &[Name], terms: &[CoreTerm], term: usize) -> Option<Label>
    ensures { result ≡ spec.label names.now terms.now term }
{
    name_of(names, naming_of(names, term, terms))
}
