//! What variables are called in the text.

ghost use Rattle.std.specs.Prelude.{◌≡◌, ◌++◌, IfOk, OnOk};
ghost use Rattle.ipg_core.specs.Grammar.{holder_of, name_at, rule_at};
ghost use Rattle.ipg_app_explain.specs.Named as named;
ghost use Rattle.ipg_app_values.specs.Names as spec;
ghost use Rattle.ipg_app_values.specs.Names.{alternative, field_of, quantity_name, label_in, owner, result_field, rule_in, turn_name, whole_name};
ghost use Rattle.ipg_app_values.specs.Seen.{site_of};

use ipg_app_explain::{TermAt, add_label, cut, loop_name, rule_name};
use ipg_ast::Grammar;
use ipg_core::accepted::Core;
use ipg_facts_variables::{Quantity, Side, Variable};
use ipg_graph::Edge;
use ipg_num::item_at;
use std::alloc::{AllocError, Global};

/// Where a call stands, in a grammar as it is written and in its core grammar.
#[derive(Clone, Copy)]
pub struct CallSite<'a> {
    pub written: &'a Grammar,
    pub core: &'a Core,
    pub edge: Edge,
}

fn holder_at(core: &Core, rule: u32) -> Option<(u32, u32)>
    ensures { result ≡ holder_of (rule_at core.now rule) }
{
    match item_at(core.rules(), rule as usize) {
        Some(rule) => rule.holder,
        None => None,
    }
}

fn alternative(site: CallSite, side: Side) -> Option<(u32, u32)>
    ensures { result ≡ alternative (site_of site.entry) side }
{
    match side {
        Side::Caller => Some((site.edge.caller, site.edge.alt)),
        Side::Holder => holder_at(site.core, site.edge.caller),
        Side::Point => None,
    }
}

fn label_in(
    alloc: Global,
    g: &Grammar,
    at: Option<(u32, u32)>,
    term: u32,
) -> Result<Vec<u8>, AllocError>
    ensures { IfOk result (λ label. label.items ≡ label_in g.now at term) }
{
    let mut label = Vec::new(alloc);
    if let Some((rule, alt)) = at {
        add_label(&mut label, g, TermAt { rule, alt, term })?;
    }
    Ok(label)
}

fn field_of(label: Vec<u8>, field: &[u8]) -> Result<Vec<u8>, AllocError>
    ensures { IfOk result (λ name. name.items ≡ field_of label.items field.now) }
{
    let mut name = label;
    if name.is_empty() {
        return Ok(name);
    }
    name.push(b'.')?;
    name.extend_from_slice(field)?;
    Ok(name)
}

fn result_field(
    alloc: Global,
    site: CallSite,
    side: Side,
    term: u32,
    field: &[u8],
) -> Result<Vec<u8>, AllocError>
    ensures { IfOk result (λ name. name.items ≡ result_field (site_of site.entry) side term field.now) }
{
    let label = label_in(alloc, site.written, alternative(site, side), term)?;
    field_of(label, field)
}

fn whole_name(side: Side) -> &'static [u8]
    ensures { result.now ≡ whole_name side }
{
    match side {
        Side::Holder => b"EOI",
        _ => b"",
    }
}

fn turn_name<'a>(site: CallSite<'a>, side: Side) -> &'a [u8]
    ensures { result.now ≡ turn_name (site_of site.entry) side }
{
    let at = TermAt {
        rule: site.edge.caller,
        alt: site.edge.alt,
        term: site.edge.term,
    };
    match side {
        Side::Caller => loop_name(site.written, at),
        _ => &[],
    }
}

fn attribute_name(core: &Core, attr: u32) -> &[u8]
    ensures { result.now ≡ named.cut (name_at core.now.names attr) }
{
    match item_at(core.names(), attr as usize) {
        Some(name) => cut(name.as_slice()),
        None => &[],
    }
}

fn quantity_name(
    alloc: Global,
    site: CallSite,
    side: Side,
    of: &Quantity,
) -> Result<Vec<u8>, AllocError>
    ensures { IfOk result (λ name. name.items ≡ quantity_name (site_of site.entry) side of.now) }
{
    match of {
        Quantity::Whole => Vec::from_slice(alloc, whole_name(side)),
        Quantity::Attribute(attr) => Vec::from_slice(alloc, attribute_name(site.core, *attr)),
        Quantity::Loop => Vec::from_slice(alloc, turn_name(site, side)),
        Quantity::Start(term) => result_field(alloc, site, side, *term, b"start"),
        Quantity::End(term) => result_field(alloc, site, side, *term, b"end"),
        Quantity::Named(term, name) => result_field(alloc, site, side, *term, cut(name.as_slice())),
        Quantity::Value(_) => Ok(Vec::new(alloc)),
    }
}

fn rule_in(g: &Grammar, at: Option<(u32, u32)>) -> &[u8]
    ensures { result.now ≡ rule_in g.now at }
{
    match at {
        Some(at) => rule_name(g, at.0),
        None => &[],
    }
}

/// Appends whose it is, where it isn't the caller's own.
fn add_owner(out: &mut Vec<u8>, site: CallSite, side: Side) -> Result<(), AllocError>
    ensures { OnOk result (out.new.items ≡ out.old.items ++ owner (site_of site.entry) side) }
{
    match side {
        Side::Holder => {
            out.extend_from_slice(b" of ")?;
            out.extend_from_slice(rule_in(site.written, alternative(site, side)))
        }
        _ => Ok(()),
    }
}

/// What the variable is called; nothing where it has no name in the text.
pub fn name_of(alloc: Global, site: CallSite, variable: &Variable) -> Result<Vec<u8>, AllocError>
    ensures { IfOk result (λ name. name.items ≡ spec.name_of (site_of site.entry) variable.now) }
{
    let mut name = quantity_name(alloc, site, variable.side, &variable.of)?;
    if name.is_empty() {
        return Ok(name);
    }
    add_owner(&mut name, site, variable.side)?;
    Ok(name)
}
