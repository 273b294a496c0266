//! Reads a made text, and resolves its names or doesn't: `tool_names read|resolve rules|terms SIZE RUNS`.
#![tactic(auto)]

ghost use Rattle.ipg_names.specs.Readable.{IsReadable};

mod texts;

use anyhow::{Result, bail};
use ipg_ast::Grammar;
use ipg_names::resolve;
use ipg_names_text::grammar_in;
use std::alloc::Global;
use std::env;

/// What is done with a text.
#[derive(Clone, Copy)]
enum Work {
    Read,
    Resolve,
}

fn work_of(word: &str) -> Result<Work> {
    Ok(match word {
        "read" => Work::Read,
        "resolve" => Work::Resolve,
        _ => bail!("read or resolve"),
    })
}

fn made(alloc: Global, kind: &str, size: u32) -> Result<String> {
    Ok(match kind {
        "rules" => texts::rules(alloc, size)?,
        "terms" => texts::terms(alloc, size)?,
        _ => bail!("no such text"),
    })
}

/// How many rules the text has, or 0 where it is refused.
fn rules_read(alloc: Global, text: &[u8]) -> usize {
    match grammar_in(alloc, text) {
        Ok(grammar) => grammar.rules.len(),
        Err(_) => 0,
    }
}

fn rules_resolved(alloc: Global, text: &[u8]) -> usize {
    match grammar_in(alloc, text) {
        Ok(grammar) => resolved(alloc, &grammar),
        Err(_) => 0,
    }
}

fn resolved(alloc: Global, grammar: &Grammar) -> usize
    requires { IsReadable grammar.now }
{
    match resolve(alloc, grammar) {
        Ok(named) => named.rules().len(),
        Err(_) => 0,
    }
}

fn done(alloc: Global, work: Work, text: &[u8]) -> usize {
    match work {
        Work::Read => rules_read(alloc, text),
        Work::Resolve => rules_resolved(alloc, text),
    }
}

fn main(rt: HostRuntime) -> Result<()> {
    let alloc = rt.alloc();
    let args: Vec<String> = env::args(&rt)?.collect(alloc)?;
    match args.as_slice() {
        [_, work, kind, size, runs] => {
            let work = work_of(work.as_str())?;
            let text = made(alloc, kind.as_str(), size.parse()?)?;
            let runs: u32 = runs.parse()?;
            let mut rules = 0;
            for _ in 0..runs {
                rules = done(alloc, work, text.as_bytes());
            }
            let bytes = text.len();
            println!(rt; "bytes {bytes} rules {rules}")?;
            Ok(())
        }
        _ => bail!("tool_names read|resolve rules|terms SIZE RUNS"),
    }
}
