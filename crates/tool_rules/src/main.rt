//! Reads a made text and says what it is: `tool_rules rules|sum|brackets SIZE RUNS`.
#![tactic(auto)]

use anyhow::{Result, bail};
use std::alloc::{AllocError, Global};
use std::env;

#[cfg(test)]
mod tests;

/// A beginning, a piece many times, and an end.
fn long(
    alloc: Global,
    head: &[u8],
    piece: &[u8],
    times: u32,
    tail: &[u8],
) -> std::result::Result<Vec<u8>, AllocError> {
    let mut text = Vec::from_slice(alloc, head)?;
    for _ in 0..times {
        text.extend_from_slice(piece)?;
    }
    text.extend_from_slice(tail)?;
    Ok(text)
}

/// Alternatives of 210 bytes, five a rule.
fn rules(alloc: Global, count: u32) -> std::result::Result<Vec<u8>, AllocError> {
    let rule = long(alloc, b"Rule -> ", b"", 0, ALT)?;
    let rule = long(alloc, rule.as_slice(), SLASH_ALT, 4, b" ;\n")?;
    long(alloc, b"", rule.as_slice(), count, b"")
}

/// A sum of groups, each of which is a sum of eight, five times over: 32,768 numbers and as many signs each.
fn sum(alloc: Global, groups: u32) -> std::result::Result<Vec<u8>, AllocError> {
    let mut group = Vec::from_slice(alloc, b"1")?;
    for _ in 0..5 {
        let first = long(alloc, b"(", group.as_slice(), 1, b"")?;
        let other = long(alloc, b"+", group.as_slice(), 1, b"")?;
        group = long(alloc, first.as_slice(), other.as_slice(), 7, b")")?;
    }
    let first = long(alloc, b"S -> ?(0", b"", 0, b"")?;
    let other = long(alloc, b"+", group.as_slice(), 1, b"")?;
    long(alloc, first.as_slice(), other.as_slice(), groups, b") ;")
}

fn made(alloc: Global, kind: &str, size: u32) -> Result<Vec<u8>> {
    Ok(match kind {
        "rules" => rules(alloc, size)?,
        "sum" => sum(alloc, size)?,
        "brackets" => long(alloc, b"S -> ?", b"(", size, b"")?,
        _ => bail!("no such text"),
    })
}

const ALT: &[u8] =
    b"{n = A.v + 1} ?(n > 0x2 && A.v != 7) U8[0, 1] A[n, EOI - 4] \"abcd\"[EOI - 4, EOI] \
    switch {case (A.v == 1) B[0, n] case (A.v == 2) C[n, EOI] else D} for i = 0 to A.v do E[4 * i, 4 * i + 4]";

const SLASH_ALT: &[u8] =
    b" / {n = A.v + 1} ?(n > 0x2 && A.v != 7) U8[0, 1] A[n, EOI - 4] \"abcd\"[EOI - 4, EOI] \
    switch {case (A.v == 1) B[0, n] case (A.v == 2) C[n, EOI] else D} for i = 0 to A.v do E[4 * i, 4 * i + 4]";

/// How many rules the text has, or where it breaks.
fn answer(alloc: Global, text: &[u8]) -> usize {
    match ipg_read::read(alloc, text) {
        Ok(grammar) => grammar.rules.len(),
        Err(_) => 0,
    }
}

fn main(rt: HostRuntime) -> Result<()> {
    let alloc = rt.alloc();
    let args: Vec<String> = env::args(&rt)?.collect(alloc)?;
    match args.as_slice() {
        [_, kind, size, runs] => {
            let text = made(alloc, kind.as_str(), size.parse()?)?;
            let runs: u32 = runs.parse()?;
            let mut rules = 0;
            for _ in 0..runs {
                rules = answer(alloc, text.as_slice());
            }
            let bytes = text.len();
            println!(rt; "bytes {bytes} rules {rules}")?;
            Ok(())
        }
        _ => bail!("tool_rules rules|sum|brackets SIZE RUNS"),
    }
}
