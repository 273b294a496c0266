//! Prints the conditions of each call of a grammar: `tool_conditions GRAMMAR`; as they were when they knew less: `tool_conditions
//! earlier GRAMMAR`.
#![tactic(auto)]

#[cfg(test)]
mod tests;
mod text;

ghost use Rattle.std.specs.Prelude.{◌<◌, length};

use anyhow::{Context, Result, bail};
use ipg_complete::complete;
use ipg_core::accepted::Core;
use ipg_core::grammar::CoreRule;
use ipg_facts::{keep, keep_before};
use ipg_facts_edges::edges;
use ipg_graph::Edge;
use ipg_lin::{Boxed, Formula};
use ipg_names::resolve;
use ipg_names_text::grammar_in;
use ipg_num::item_at;
use ipg_order::order;
use ipg_outside::{DiskFiles, Files};
use ipg_touch::must_touch;
use std::alloc::Global;
use std::env;
use std::io::{self, Write};
use text::put_conditions;

const USAGE: &str = "tool_conditions [earlier] GRAMMAR";

fn core_in(alloc: Global, text: &[u8]) -> Result<Core> {
    let grammar = grammar_in(alloc, text)?;
    let named = resolve(alloc, &grammar)?;
    Ok(order(alloc, complete(alloc, named)?)?)
}

fn rule_name(rules: &[CoreRule], rule: u32) -> Result<&str> {
    match item_at(rules, rule as usize) {
        Some(rule) => Ok(std::str::from_utf8(rule.name.as_slice())?),
        None => bail!("no rule {rule}"),
    }
}

/// `NUMBER CALLER/ALT/TERM/BRANCH to CALLEE`
fn put_edge(
    alloc: Global,
    out: &mut String,
    rules: &[CoreRule],
    e: u32,
    edge: &Edge,
) -> Result<()> {
    let caller = rule_name(rules, edge.caller)?;
    let callee = rule_name(rules, edge.callee)?;
    let place = format!(in alloc;
        "{e} {caller}/{}/{}/{} to {callee}\n",
        edge.alt, edge.term, edge.branch
    )?;
    out.push_str(place.as_str())?;
    Ok(())
}

/// Which conditions are asked for.
#[derive(Clone, Copy)]
enum Asked {
    Present,
    Earlier,
}

fn kept(
    alloc: Global,
    asked: Asked,
    g: &Core,
    marks: &[bool],
    edges: &[Edge],
    e: u32,
) -> Result<(Formula, Boxed)>
    requires { e < length edges.now }
{
    match asked {
        Asked::Present => Ok(keep(alloc, g, marks, edges, e)?),
        Asked::Earlier => Ok(keep_before(alloc, g, marks, edges, e)?),
    }
}

/// The edges of a grammar, each with its conditions.
fn conditions(alloc: Global, asked: Asked, g: &Core) -> Result<String> {
    let marks = must_touch(alloc, g)?;
    let edges = edges(alloc, g)?;
    let mut out = String::new(alloc);
    for e in 0..u32::try_from(edges.len())? {
        put_edge(alloc, &mut out, g.rules(), e, &edges[e as usize])?;
        let (formula, bounds) = kept(alloc, asked, g, &marks, &edges, e)?;
        put_conditions(alloc, &mut out, &formula, &bounds)?;
    }
    Ok(out)
}

fn main(rt: HostRuntime) -> Result<()> {
    let alloc = rt.alloc();
    let mut words = env::args(&rt)?.skip(1);
    let mut name = words.next().context(USAGE)?;
    let mut asked = Asked::Present;
    if name.as_str() == "earlier" {
        asked = Asked::Earlier;
        name = words.next().context(USAGE)?;
    }
    let mut files = DiskFiles::new(&rt);
    let text = match files.read_all(alloc, name.as_str(), 1 << 20) {
        Ok(text) => text,
        Err(_) => bail!("{name} can't be read"),
    };
    let core = core_in(alloc, &text)?;
    io::writer(&rt).write_all(conditions(alloc, asked, &core)?.as_bytes())?;
    Ok(())
}
