//! The calls that led to a failure.
ghost use Rattle.std.specs.Prelude.{◌≡◌, ◌++◌, drop, flat_map, take, OnOk};
ghost use Rattle.std.specs.Option.{option_copied};
ghost use Rattle.ipg_app_explain.specs.Furthest as spec;
ghost use Rattle.ipg_app_explain.specs.Furthest.{call_line, gap_line, gap_words, item_words, nearest};
ghost use Rattle.ipg_app_explain.specs.Seen.{subject_of};

use crate::bytes::{add_extent, add_number};
use crate::furthest::Subject;
use crate::named::{is_many, rule_name};
use crate::spot::add_place_line;
use crate::terms::{TermAt, term_at, term_place};
use ipg_mach_failures::{Call, Failure};
use ipg_num::item_at;
use std::alloc::AllocError;

/// So many calls are told before those that are left out.
const FIRST_CALLS: usize = 4;

pub fn at_of(call: &Call) -> TermAt
    ensures rule { result.rule ≡ call.now.rule }
    ensures alt { result.alt ≡ call.now.alt }
    ensures term { result.term ≡ call.now.term }
{
    TermAt {
        rule: call.rule,
        alt: call.alt,
        term: call.term,
    }
}

/// The call that is open nearest below.
pub fn nearest(calls: &[Call]) -> Option<&Call>
    ensures { option_copied result ≡ nearest calls.now }
{
    item_at(calls, calls.len().saturating_sub(1))
}

/// Whether a call is at a repetition.
pub fn is_in_many(subject: Subject<'_>, call: Option<&Call>) -> bool
    ensures { result ≡ spec.is_in_many (subject_of subject.entry) (option_copied call.entry) }
{
    match call {
        Some(call) => is_many(term_at(subject.grammar, at_of(call))),
        None => false,
    }
}

/// A rule, and the part of its call.
pub fn add_call_words(
    out: &mut Vec<u8>,
    subject: Subject<'_>,
    rule: u32,
    from: u32,
    to: u32,
) -> Result<(), AllocError>
    ensures { OnOk result (out.new.items ≡ out.old.items ++ spec.call_words (subject_of subject.entry) rule from to) }
{
    out.extend_from_slice(b"in ")?;
    out.extend_from_slice(rule_name(subject.grammar, rule))?;
    out.push(b' ')?;
    add_extent(out, from, to)
}

fn add_at_place(out: &mut Vec<u8>, subject: Subject<'_>, at: Option<u32>) -> Result<(), AllocError>
    ensures { OnOk result (out.new.items ≡ out.old.items ++ spec.at_place (subject_of subject.entry) at) }
{
    match at {
        Some(at) => {
            out.extend_from_slice(b" at ")?;
            add_place_line(out, subject.source.name, subject.source.text, at)
        }
        None => out.extend_from_slice(b"\n"),
    }
}

fn add_call(out: &mut Vec<u8>, subject: Subject<'_>, call: &Call) -> Result<(), AllocError>
    ensures { OnOk result (out.new.items ≡ out.old.items ++ call_line (subject_of subject.entry) call.now) }
{
    add_call_words(out, subject, call.rule, call.from, call.to)?;
    add_at_place(out, subject, term_place(subject.grammar, at_of(call)))
}

fn add_calls(out: &mut Vec<u8>, subject: Subject<'_>, calls: &[Call]) -> Result<(), AllocError>
    ensures { OnOk result (out.new.items ≡ out.old.items ++ flat_map (call_line (subject_of subject.entry)) calls.now) }
{
    for call in calls {
        add_call(out, subject, call)?;
    }
    Ok(())
}

fn add_gap(out: &mut Vec<u8>, left_out: u64) -> Result<(), AllocError>
    ensures { OnOk result (out.new.items ≡ out.old.items ++ gap_line left_out) }
{
    if left_out == 0 {
        return Ok(());
    }
    add_gap_words(out, left_out)
}

fn add_gap_words(out: &mut Vec<u8>, left_out: u64) -> Result<(), AllocError>
    ensures { OnOk result (out.new.items ≡ out.old.items ++ gap_words left_out) }
{
    out.extend_from_slice(b".. ")?;
    add_number(out, left_out)?;
    out.extend_from_slice(b" more calls ..\n")?;
    Ok(())
}

fn first_calls(calls: &[Call]) -> &[Call]
    ensures { result.now ≡ take 4 calls.now }
{
    calls.get(..FIRST_CALLS).unwrap_or(calls)
}

fn last_calls(calls: &[Call]) -> &[Call]
    ensures { result.now ≡ drop 4 calls.now }
{
    calls.get(FIRST_CALLS..).unwrap_or(&[])
}

/// The calls that are open below a failure, those that are left out behind the fourth.
pub fn add_chain(
    out: &mut Vec<u8>,
    subject: Subject<'_>,
    calls: &[Call],
    left_out: u64,
) -> Result<(), AllocError>
    ensures { OnOk result (out.new.items ≡ out.old.items ++ spec.chain (subject_of subject.entry) calls.now left_out) }
{
    add_calls(out, subject, first_calls(calls))?;
    add_gap(out, left_out)?;
    add_calls(out, subject, last_calls(calls))
}

fn add_item(out: &mut Vec<u8>, item: Option<u64>) -> Result<(), AllocError>
    ensures { OnOk result (out.new.items ≡ out.old.items ++ item_words item) }
{
    match item {
        Some(number) => {
            out.extend_from_slice(b", item ")?;
            add_number(out, number)?;
            out.push(b'\n')?;
            Ok(())
        }
        None => out.extend_from_slice(b"\n"),
    }
}

/// The call that failed.
pub fn add_last(out: &mut Vec<u8>, subject: Subject<'_>, f: &Failure) -> Result<(), AllocError>
    ensures { OnOk result (out.new.items ≡ out.old.items ++ spec.last_line (subject_of subject.entry) f.now) }
{
    add_call_words(out, subject, f.rule, f.from, f.to)?;
    add_item(out, f.item)
}
