//! Prints what a parse counts, with the memo and without: `tool_counts GRAMMAR FILE`; with it alone: `tool_counts GRAMMAR FILE on`.
#![tactic(auto)]

ghost use Rattle.std.specs.Prelude.{◌≤◌, ◌^◌, length};

use anyhow::{Context, Result, bail};
use ipg_complete::complete;
use ipg_core::accepted::Checked;
use ipg_mach::{Counts, Outcome, Remember, parse};
use ipg_names::resolve;
use ipg_names_text::grammar_in;
use ipg_order::order;
use ipg_outside::{DiskFiles, Files};
use ipg_table::tables::{Tables, compile};
use ipg_term::check;
use linked_list_allocator::LocalHeap;
use std::alloc::Global;
use std::env;
use std::io::{self, Write};

#[cfg(test)]
mod tests;

/// The heap of a parse.
const HEAP: usize = 1 << 20;

fn checked_in(alloc: Global, text: &[u8]) -> Result<Checked> {
    let grammar = grammar_in(alloc, text)?;
    let named = resolve(alloc, &grammar)?;
    let core = order(alloc, complete(alloc, named)?)?;
    match check(alloc, core) {
        Ok((checked, _)) => Ok(checked),
        Err(_) => bail!("parsing by the grammar may not end"),
    }
}

/// What a parse comes to, and its counts.
fn counted(
    alloc: Global,
    tables: &Tables,
    input: &[u8],
    remember: Remember,
) -> Result<(&'static str, Counts)>
    requires { length input.now ≤ 2 ^ 30 }
{
    let heap = LocalHeap::new(alloc, HEAP)?;
    match parse(&heap, tables, input, remember)? {
        Outcome::Tree(parsed) => Ok(("tree", parsed.counts())),
        Outcome::NoTree(counts) => Ok(("no parse", counts)),
        Outcome::Range(counts) => Ok(("range", counts)),
    }
}

/// `bodies=N hits=N deepest=N`
fn text_of(alloc: Global, counts: Counts) -> Result<String> {
    Ok(format!(in alloc;
        "bodies={} hits={} deepest={}",
        counts.bodies, counts.hits, counts.deepest
    )?)
}

/// What is counted of a parse.
#[derive(Clone, Copy)]
enum Wanted {
    Memo,
    Both,
}

fn counts(alloc: Global, grammar: &[u8], input: &[u8], wanted: Wanted) -> Result<String>
    requires { length input.now ≤ 2 ^ 30 }
{
    let tables = compile(alloc, &checked_in(alloc, grammar)?)?;
    let (outcome, with_memo) = counted(alloc, &tables, input, Remember::Answers)?;
    let on = text_of(alloc, with_memo)?;
    match wanted {
        Wanted::Memo => Ok(format!(in alloc; "{outcome} on {on}\n")?),
        Wanted::Both => {
            let (_, without) = counted(alloc, &tables, input, Remember::Nothing)?;
            let off = text_of(alloc, without)?;
            Ok(format!(in alloc; "{outcome} on {on} off {off}\n")?)
        }
    }
}

fn main(rt: HostRuntime) -> Result<()> {
    let alloc = rt.alloc();
    let mut words = env::args(&rt)?.skip(1);
    let grammar = words.next().context("tool_counts GRAMMAR FILE [on]")?;
    let file = words.next().context("tool_counts GRAMMAR FILE [on]")?;
    let wanted = match words.next() {
        Some(_) => Wanted::Memo,
        None => Wanted::Both,
    };
    let mut files = DiskFiles::new(&rt);
    let text = match files.read_all(alloc, grammar.as_str(), 1 << 20) {
        Ok(text) => text,
        Err(_) => bail!("{grammar} can't be read"),
    };
    let input = match files.read_all(alloc, file.as_str(), 1 << 30) {
        Ok(input) => input,
        Err(_) => bail!("{file} can't be read"),
    };
    io::writer(&rt).write_all(counts(alloc, &text, &input, wanted)?.as_bytes())?;
    Ok(())
}
