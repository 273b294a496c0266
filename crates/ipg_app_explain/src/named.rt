//! What a term of a grammar asks for, and what its rule is called.
ghost use Rattle.std.specs.Prelude.{◌≡◌, ◌++◌, OnOk};
ghost use Rattle.std.specs.Option.{option_copied};
ghost use Rattle.ipg_app_explain.specs.Named as spec;
ghost use Rattle.ipg_app_explain.specs.Named.{cut, wanted_of, what_label, what_size, what_words, label_of, width_of};

use crate::bytes::{MOST_SHOWN, add_bytes};
use crate::spot::{add_seen, upto};
use crate::terms::{TermAt, branch_or, rule_at, term_at};
use crate::words::TOLD_BYTES;
use ipg_ast::{Grammar, Term, What};
use ipg_core::grammar::Primitive;
use ipg_num::item_at;
use std::alloc::AllocError;

/// A name, cut where it is long.
pub fn cut(name: &[u8]) -> &[u8]
    ensures { result.now ≡ cut name.now }
{
    upto(name, TOLD_BYTES)
}

/// The name of a rule by its number, cut where it is long; nothing where there is no such rule.
pub fn rule_name(g: &Grammar, rule: u32) -> &[u8]
    ensures { result.now ≡ spec.rule_name g.now rule }
{
    match rule_at(g, rule) {
        Some(rule) => cut(rule.name.name.as_slice()),
        None => &[],
    }
}

/// How many alternatives a rule has.
pub fn alternatives(g: &Grammar, rule: u32) -> usize
    ensures { result ≡ spec.alternatives g.now rule }
{
    match rule_at(g, rule) {
        Some(rule) => rule.alts.len(),
        None => 0,
    }
}

fn add_what(out: &mut Vec<u8>, what: &What) -> Result<(), AllocError>
    ensures { OnOk result (out.new.items ≡ out.old.items ++ what_words what.now) }
{
    match what {
        What::Text(bytes) => add_bytes(out, bytes.as_slice()),
        What::Call(name) => out.extend_from_slice(cut(name.as_slice())),
    }
}

/// What a term reads, in a switch at a branch.
pub fn add_wanted(out: &mut Vec<u8>, term: &Term, branch: u64) -> Result<(), AllocError>
    ensures { OnOk result (out.new.items ≡ out.old.items ++ wanted_of branch term.now) }
{
    match term {
        Term::Slot(slot) => add_what(out, &slot.what),
        Term::Repeat { item, .. } => out.extend_from_slice(cut(item.name.as_slice())),
        Term::Many { item, .. } => out.extend_from_slice(cut(item.name.as_slice())),
        Term::Pick { cases, other, .. } => {
            let slot = branch_or(item_at(cases.as_slice(), branch as usize), other);
            add_what(out, &slot.what)
        }
        _ => Ok(()),
    }
}

fn add_what_label(out: &mut Vec<u8>, what: &What) -> Result<(), AllocError>
    ensures { OnOk result (out.new.items ≡ out.old.items ++ what_label what.now) }
{
    match what {
        What::Text(bytes) => {
            out.push(b'"')?;
            add_seen(out, upto(bytes.as_slice(), MOST_SHOWN))?;
            out.push(b'"')?;
            Ok(())
        }
        What::Call(name) => out.extend_from_slice(cut(name.as_slice())),
    }
}

fn add_label_of(out: &mut Vec<u8>, term: &Term) -> Result<(), AllocError>
    ensures { OnOk result (out.new.items ≡ out.old.items ++ label_of term.now) }
{
    match term {
        Term::Slot(slot) => add_what_label(out, &slot.what),
        Term::Repeat { item, .. } => out.extend_from_slice(cut(item.name.as_slice())),
        Term::Many { item, .. } => out.extend_from_slice(cut(item.name.as_slice())),
        Term::Pick { cases, other, .. } => {
            let slot = branch_or(item_at(cases.as_slice(), 0), other);
            add_what_label(out, &slot.what)
        }
        _ => Ok(()),
    }
}

/// What a term's result goes by: the name of what it reads, in a switch of what the first branch reads; nothing where there is no such
/// term, or where it reads nothing.
pub fn add_label(out: &mut Vec<u8>, g: &Grammar, at: TermAt) -> Result<(), AllocError>
    ensures { OnOk result (out.new.items ≡ out.old.items ++ spec.label_at g.now at.rule at.alt at.term) }
{
    match term_at(g, at) {
        Some(term) => add_label_of(out, term),
        None => Ok(()),
    }
}

/// The name of an array's variable; nothing where the term is none.
pub fn loop_name(g: &Grammar, at: TermAt) -> &[u8]
    ensures { result.now ≡ spec.loop_name g.now at.rule at.alt at.term }
{
    match term_at(g, at) {
        Some(Term::Repeat { var, .. }) => cut(var.name.as_slice()),
        _ => &[],
    }
}

/// How many bytes a number takes, by the word of its primitive.
fn width_of(name: &[u8]) -> usize
    ensures { result ≡ width_of name.now }
{
    match Primitive::of_word(name) {
        Some(prim) => prim.width() as usize,
        None => 0,
    }
}

fn what_size(what: &What) -> usize
    ensures { result ≡ what_size what.now }
{
    match what {
        What::Text(bytes) => bytes.len(),
        What::Call(name) => width_of(name.as_slice()),
    }
}

/// How many bytes the string or the number takes that a term reads.
pub fn size_of(term: &Term, branch: u64) -> usize
    ensures { result ≡ spec.size_of branch term.now }
{
    match term {
        Term::Slot(slot) => what_size(&slot.what),
        Term::Repeat { item, .. } => width_of(item.name.as_slice()),
        Term::Many { item, .. } => width_of(item.name.as_slice()),
        Term::Pick { cases, other, .. } => {
            let slot = branch_or(item_at(cases.as_slice(), branch as usize), other);
            what_size(&slot.what)
        }
        _ => 0,
    }
}

pub fn is_many(term: Option<&Term>) -> bool
    ensures { result ≡ spec.is_many (option_copied term.entry) }
{
    match term {
        Some(Term::Many { .. }) => true,
        _ => false,
    }
}
