//! Cuts a made text into tokens and says how many: `tool_tokens symbols|name|digits|comments|string BYTES RUNS`.
#![tactic(auto)]

use anyhow::{Result, bail};
use std::alloc::{AllocError, Global};
use std::env;

#[cfg(test)]
mod tests;

fn repeated(alloc: Global, piece: &[u8], times: u32) -> std::result::Result<Vec<u8>, AllocError> {
    let mut text = Vec::new(alloc);
    for _ in 0..times {
        text.extend_from_slice(piece)?;
    }
    Ok(text)
}

fn quoted(alloc: Global, bytes: u32) -> std::result::Result<Vec<u8>, AllocError> {
    let mut text = repeated(alloc, b"\"", 1)?;
    text.extend_from_slice(repeated(alloc, b"a", bytes.saturating_sub(2))?.as_slice())?;
    text.extend_from_slice(b"\"")?;
    Ok(text)
}

fn count(alloc: Global, text: &[u8]) -> usize {
    match ipg_read_tokens::tokens(alloc, text) {
        Ok(found) => found.len(),
        Err(_) => 0,
    }
}

fn made(alloc: Global, kind: &str, bytes: u32) -> Result<Vec<u8>> {
    Ok(match kind {
        "symbols" => repeated(alloc, b";", bytes)?,
        "name" => repeated(alloc, b"a", bytes)?,
        "digits" => repeated(alloc, b"1", bytes)?,
        "comments" => repeated(alloc, b"# hello\n", bytes / 8)?,
        "string" => quoted(alloc, bytes)?,
        _ => bail!("no such text"),
    })
}

fn main(rt: HostRuntime) -> Result<()> {
    let alloc = rt.alloc();
    let args: Vec<String> = env::args(&rt)?.collect(alloc)?;
    match args.as_slice() {
        [_, kind, bytes, runs] => {
            let text = made(alloc, kind.as_str(), bytes.parse()?)?;
            let runs: u32 = runs.parse()?;
            let mut tokens = 0;
            for _ in 0..runs {
                tokens = count(alloc, text.as_slice());
            }
            println!(rt; "tokens {tokens}")?;
            Ok(())
        }
        _ => bail!("tool_tokens symbols|name|digits|comments|string BYTES RUNS"),
    }
}
