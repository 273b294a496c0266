//! Writes a sample file to standard output, as in `tool_sample gif 3`, or with no number the grammar's
//! text.
#![tactic(auto)]

#[cfg(test)]
mod tests;

ghost use Rattle.std.specs.Prelude.{◌≤◌, IfOk};

use anyhow::{Context, Result, bail, ensure};
use ipg_formats::{Kind, sample, text};
use std::env;
use std::io::{self, Write};

fn kind_of(name: &str) -> Result<Kind> {
    match name {
        "elf" => Ok(Kind::Elf),
        "pe" => Ok(Kind::Pe),
        "gif" => Ok(Kind::Gif),
        "pcap" => Ok(Kind::Pcap),
        _ => bail!("no format {name:?}: elf, pe, gif or pcap"),
    }
}

/// How many sections, comments or packets to write.
fn count_of(word: &str) -> Result<u32>
    ensures { IfOk result (λ n. n ≤ 10000) }
{
    let n = word.parse::<u32>().context("the number")?;
    ensure!(n <= 10000, "at most 10000");
    Ok(n)
}

fn main(rt: HostRuntime) -> Result<()> {
    let mut words = env::args(&rt)?.skip(1);
    let name = words.next().context("tool_sample FORMAT [NUMBER]")?;
    let kind = kind_of(name.as_str())?;
    let mut out = io::writer(&rt);
    match words.next() {
        None => out.write_all(text(kind))?,
        Some(word) => {
            let bytes = sample(rt.alloc(), kind, count_of(word.as_str())?)?;
            out.write_all(bytes.as_slice())?;
        }
    }
    Ok(())
}
