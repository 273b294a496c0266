//! The names that a term read which failed, with their values.
ghost use Rattle.std.specs.Prelude.{◌≡◌, ◌++◌, flat_map, OnOk};
ghost use Rattle.std.specs.Option.{option_copied};
ghost use Rattle.ipg_app_explain.specs.Values as spec;

use crate::bytes::{MOST_SHOWN, add_signed};
use crate::named::{cut, rule_name};
use crate::spot::{add_seen, upto};
use crate::terms::{TermAt, term_at};
use ipg_ast::{Grammar, Term, What};
use ipg_core::grammar::{CoreField, Name};
use ipg_mach_failures::{Failure, Operand, Taken, Valued};
use ipg_num::item_at;
use std::alloc::AllocError;

/// A string in quotes.
fn add_quoted(out: &mut Vec<u8>, bytes: &[u8]) -> Result<(), AllocError>
    ensures { OnOk result (out.new.items ≡ out.old.items ++ spec.quoted bytes.now) }
{
    out.push(b'"')?;
    add_seen(out, upto(bytes, MOST_SHOWN))?;
    out.push(b'"')?;
    Ok(())
}

fn add_what_name(out: &mut Vec<u8>, what: &What) -> Result<(), AllocError>
    ensures { OnOk result (out.new.items ≡ out.old.items ++ spec.what_name what.now) }
{
    match what {
        What::Text(bytes) => add_quoted(out, bytes.as_slice()),
        What::Call(name) => out.extend_from_slice(cut(name.as_slice())),
    }
}

/// What a string is called, or a switch behind which an interval begins.
fn add_text_name(out: &mut Vec<u8>, term: Option<&Term>) -> Result<(), AllocError>
    ensures { OnOk result (out.new.items ≡ out.old.items ++ spec.text_name (option_copied term.entry)) }
{
    match term {
        Some(Term::Slot(slot)) => add_what_name(out, &slot.what),
        Some(Term::Pick { .. }) => out.extend_from_slice(b"switch"),
        _ => Ok(()),
    }
}

/// What a term's result is called that took this.
fn add_taken_name(
    out: &mut Vec<u8>,
    g: &Grammar,
    term: Option<&Term>,
    taken: Taken,
) -> Result<(), AllocError>
    ensures { OnOk result (out.new.items ≡ out.old.items ++ spec.taken_name g.now (option_copied term.entry) taken) }
{
    match taken {
        Taken::Text => add_text_name(out, term),
        Taken::Prim(prim) => out.extend_from_slice(prim.word()),
        Taken::Rule(rule) => out.extend_from_slice(rule_name(g, rule)),
    }
}

/// The name of an attribute by its number.
fn attr_name(names: &[Name], attr: u32) -> &[u8]
    ensures { result.now ≡ spec.attr_name names.now attr }
{
    match item_at(names, attr as usize) {
        Some(name) => cut(name.as_slice()),
        None => &[],
    }
}

fn field_name(names: &[Name], field: CoreField) -> &[u8]
    ensures { result.now ≡ spec.field_name names.now field }
{
    match field {
        CoreField::Attr(attr) => attr_name(names, attr),
        CoreField::Start => b"start",
        CoreField::End => b"end",
    }
}

/// The loop variable of an array.
fn loop_name(term: Option<&Term>) -> &[u8]
    ensures { result.now ≡ spec.loop_name (option_copied term.entry) }
{
    match term {
        Some(Term::Repeat { var, .. }) => cut(var.name.as_slice()),
        _ => &[],
    }
}

/// A term of the alternative of which a term failed.
fn beside(f: &Failure, term: u32) -> TermAt
    ensures rule { result.rule ≡ f.now.rule }
    ensures alt { result.alt ≡ f.now.alt }
    ensures term { result.term ≡ term }
{
    TermAt {
        rule: f.rule,
        alt: f.alt,
        term,
    }
}

/// A field of the result of a term.
fn add_field(
    out: &mut Vec<u8>,
    g: &Grammar,
    names: &[Name],
    at: TermAt,
    taken: Taken,
    field: CoreField,
) -> Result<(), AllocError>
    ensures { OnOk result (out.new.items ≡ out.old.items ++ spec.field_words g.now names.now at.rule at.alt at.term taken field) }
{
    add_taken_name(out, g, term_at(g, at), taken)?;
    out.push(b'.')?;
    out.extend_from_slice(field_name(names, field))
}

/// A name as it stands in the text.
fn add_operand(
    out: &mut Vec<u8>,
    g: &Grammar,
    names: &[Name],
    f: &Failure,
    operand: Operand,
) -> Result<(), AllocError>
    ensures { OnOk result (out.new.items ≡ out.old.items ++ spec.operand_name g.now names.now f.now operand) }
{
    match operand {
        Operand::Eoi => out.extend_from_slice(b"EOI"),
        Operand::Own(attr) => out.extend_from_slice(attr_name(names, attr)),
        Operand::Outer(attr) => out.extend_from_slice(attr_name(names, attr)),
        Operand::Loop => out.extend_from_slice(loop_name(term_at(g, beside(f, f.term)))),
        Operand::Seen { term, taken, field } => {
            add_field(out, g, names, beside(f, term), taken, field)
        }
    }
}

fn add_value(out: &mut Vec<u8>, value: Option<i64>) -> Result<(), AllocError>
    ensures { OnOk result (out.new.items ≡ out.old.items ++ spec.value_words value) }
{
    match value {
        Some(value) => {
            out.extend_from_slice(b" = ")?;
            add_signed(out, value)
        }
        None => out.extend_from_slice(b" has no value"),
    }
}

/// A name with its value.
fn add_valued(
    out: &mut Vec<u8>,
    g: &Grammar,
    names: &[Name],
    f: &Failure,
    one: &Valued,
) -> Result<(), AllocError>
    ensures { OnOk result (out.new.items ≡ out.old.items ++ spec.valued_words g.now names.now f.now one.now) }
{
    add_operand(out, g, names, f, one.operand)?;
    add_value(out, one.value)
}

/// The names behind the first.
fn add_others(
    out: &mut Vec<u8>,
    g: &Grammar,
    names: &[Name],
    f: &Failure,
    others: &[Valued],
) -> Result<(), AllocError>
    ensures { OnOk result (out.new.items ≡ out.old.items ++ flat_map (spec.next_valued g.now names.now f.now) others.now) }
{
    for one in others {
        add_next_valued(out, g, names, f, one)?;
    }
    Ok(())
}

fn add_next_valued(
    out: &mut Vec<u8>,
    g: &Grammar,
    names: &[Name],
    f: &Failure,
    one: &Valued,
) -> Result<(), AllocError>
    ensures { OnOk result (out.new.items ≡ out.old.items ++ spec.next_valued g.now names.now f.now one.now) }
{
    out.extend_from_slice(b", ")?;
    add_valued(out, g, names, f, one)
}

/// The names that the term read with their values, in a line where there are any.
pub fn add_values(
    out: &mut Vec<u8>,
    g: &Grammar,
    names: &[Name],
    f: &Failure,
    values: &[Valued],
) -> Result<(), AllocError>
    ensures { OnOk result (out.new.items ≡ out.old.items ++ spec.values_line g.now names.now f.now values.now) }
{
    match values.split_first() {
        None => Ok(()),
        Some((one, others)) => {
            add_valued(out, g, names, f, one)?;
            add_others(out, g, names, f, others)?;
            out.extend_from_slice(b".\n")
        }
    }
}
