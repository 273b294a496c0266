//! Where an input stopped being what a grammar wants.
ghost use Rattle.std.specs.Prelude.{◌≡◌, ◌++◌, flat_map, IfOk, OnOk};
ghost use Rattle.ipg_app_explain.specs.Furthest as spec;
ghost use Rattle.ipg_app_explain.specs.Furthest.{failure_lines, heading, heading_words, more_words, place_words, story_lines, told_of};
ghost use Rattle.ipg_app_explain.specs.Seen.{subject_of};

use crate::bytes::add_number;
use crate::calls::{add_call_words, add_chain, add_last, at_of, is_in_many, nearest};
use crate::failing::{add_then, add_why};
use crate::named::is_many;
use crate::spot::add_spot;
use crate::terms::{TermAt, place_in, term_at, term_place};
use crate::values::add_values;
use crate::why::Source;
use ipg_ast::Grammar;
use ipg_core::grammar::Name;
use ipg_mach_failures::{Call, Failure, Story, Valued};
use std::alloc::{AllocError, Global};

/// A text under a name, the grammar that it reads as, and an input.
#[derive(Clone, Copy)]
pub struct Subject<'a> {
    pub source: Source<'a>,
    pub grammar: &'a Grammar,
    pub input: &'a [u8],
}

/// What an input came to.
#[derive(Clone, Copy, Debug, PartialEq, Eq)]
pub enum Ending {
    Tree,
    NoTree,
    /// A value left 64 bits, in the term at hand of this call.
    Range(Call),
}

/// What an input came to, and the furthest failures, with so many more that aren't told: of each its place in the grammar, what was
/// wanted and what stands there, what its expressions read, what comes of it, and the calls that led there; attributes by these names.
/// The only other answer is want of memory.
pub fn tell(
    alloc: Global,
    subject: Subject<'_>,
    names: &[Name],
    end: Ending,
    told: &[Story],
    more: u64,
) -> Result<Vec<u8>, AllocError>
    ensures { IfOk result (λ text. text.items ≡ told_of (subject_of subject.entry) names.now end told.now more) }
{
    let mut out = Vec::from_slice(alloc, end_line(end))?;
    add_range(&mut out, subject, end)?;
    add_heading(&mut out, subject.input, told, more)?;
    add_stories(&mut out, subject, names, told)?;
    Ok(out)
}

fn end_line(end: Ending) -> &'static [u8]
    ensures { result.now ≡ spec.end_line end }
{
    match end {
        Ending::Tree => b"parsed\n",
        Ending::NoTree => b"no parse\n",
        Ending::Range(_) => b"range\n",
    }
}

fn add_spot_at(out: &mut Vec<u8>, subject: Subject<'_>, at: Option<u32>) -> Result<(), AllocError>
    ensures { OnOk result (out.new.items ≡ out.old.items ++ spec.spot_at (subject_of subject.entry) at) }
{
    match at {
        Some(at) => add_spot(out, subject.source.name, subject.source.text, at),
        None => Ok(()),
    }
}

/// Where a value left 64 bits, if one did.
fn add_range(out: &mut Vec<u8>, subject: Subject<'_>, end: Ending) -> Result<(), AllocError>
    ensures { OnOk result (out.new.items ≡ out.old.items ++ spec.range_lines (subject_of subject.entry) end) }
{
    if let Ending::Range(call) = end {
        add_spot_at(out, subject, term_place(subject.grammar, at_of(&call)))?;
        out.extend_from_slice(b"A value leaves 64 bits here.\n")?;
        add_call_words(out, subject, call.rule, call.from, call.to)?;
        out.push(b'\n')?;
    }
    Ok(())
}

fn heading_words(others: u64, more: u64) -> &'static [u8]
    ensures { result.now ≡ heading_words others more }
{
    if others == 0 && more == 0 {
        b"The furthest failure is at byte "
    } else {
        b"The furthest failures are at byte "
    }
}

fn end_mark(place: u64, size: usize) -> &'static [u8]
    ensures { result.now ≡ spec.end_mark place size }
{
    if place == size as u64 {
        b", the end of the input"
    } else {
        b""
    }
}

fn add_more(out: &mut Vec<u8>, number: u64) -> Result<(), AllocError>
    ensures { OnOk result (out.new.items ≡ out.old.items ++ more_words number) }
{
    if number == 0 {
        return Ok(());
    }
    out.extend_from_slice(b", and ")?;
    add_number(out, number)?;
    out.extend_from_slice(b" more")
}

fn add_place_words(out: &mut Vec<u8>, place: u64, size: usize, more: u64) -> Result<(), AllocError>
    ensures { OnOk result (out.new.items ≡ out.old.items ++ place_words place size more) }
{
    add_number(out, place)?;
    out.extend_from_slice(end_mark(place, size))?;
    add_more(out, more)?;
    out.extend_from_slice(b".\n")
}

/// Where the furthest failures are.
fn add_heading(out: &mut Vec<u8>, input: &[u8], told: &[Story], more: u64) -> Result<(), AllocError>
    ensures { OnOk result (out.new.items ≡ out.old.items ++ heading input.now told.now more) }
{
    match told.split_first() {
        None => out.extend_from_slice(b"No term failed.\n"),
        Some((one, others)) => {
            out.extend_from_slice(heading_words(others.len() as u64, more))?;
            add_place_words(out, one.failure.place, input.len(), more)
        }
    }
}

fn add_stories(
    out: &mut Vec<u8>,
    subject: Subject<'_>,
    names: &[Name],
    told: &[Story],
) -> Result<(), AllocError>
    ensures { OnOk result (out.new.items ≡ out.old.items ++ flat_map (story_lines (subject_of subject.entry) names.now) told.now) }
{
    for one in told {
        add_story(out, subject, names, one)?;
    }
    Ok(())
}

/// A failure, and the calls that led there.
fn add_story(
    out: &mut Vec<u8>,
    subject: Subject<'_>,
    names: &[Name],
    one: &Story,
) -> Result<(), AllocError>
    ensures { OnOk result (out.new.items ≡ out.old.items ++ story_lines (subject_of subject.entry) names.now one.now) }
{
    let calls = one.calls.as_slice();
    out.push(b'\n')?;
    add_failure(
        out,
        subject,
        names,
        &one.failure,
        one.values.as_slice(),
        is_in_many(subject, nearest(calls)),
    )?;
    add_chain(out, subject, calls, one.left_out)?;
    add_last(out, subject, &one.failure)
}

fn failed_at(f: &Failure) -> TermAt
    ensures rule { result.rule ≡ f.now.rule }
    ensures alt { result.alt ≡ f.now.alt }
    ensures term { result.term ≡ f.now.term }
{
    TermAt {
        rule: f.rule,
        alt: f.alt,
        term: f.term,
    }
}

/// Where a term failed, why, what it read, and what comes of it.
fn add_failure(
    out: &mut Vec<u8>,
    subject: Subject<'_>,
    names: &[Name],
    f: &Failure,
    values: &[Valued],
    in_many: bool,
) -> Result<(), AllocError>
    ensures { OnOk result (out.new.items ≡ out.old.items ++ failure_lines (subject_of subject.entry) names.now f.now values.now in_many) }
{
    let term = term_at(subject.grammar, failed_at(f));
    add_spot_at(out, subject, place_in(term, f.branch))?;
    add_why(out, subject.input, f, term)?;
    add_values(out, subject.grammar, names, f, values)?;
    let ends = is_many(term) && f.item.is_some();
    add_then(out, subject, f, ends, in_many)
}
