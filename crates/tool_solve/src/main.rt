//! Decides a system of a family: `tool_solve FAMILY SIZE`.
#![tactic(auto)]

mod families;
mod maker;
#[cfg(test)]
mod tests;

use anyhow::{Result, bail, ensure};
use ipg_cert::{Refutation, Step};
use ipg_lin::is_over;
use ipg_solve::{Decision, decide};
use maker::System;
use std::alloc::Global;
use std::env;

fn entries_of(r: &Refutation) -> usize {
    let mut count = 0usize;
    for step in r.steps.as_slice() {
        if let Step::Combine(entries) = step {
            count = count.saturating_add(entries.len());
        }
    }
    count
}

/// The system of this size in the family.
fn system(alloc: Global, family: &str, size: u32) -> Result<System> {
    match family {
        "chain" => families::chain(alloc, size, false),
        "cycle" => families::chain(alloc, size, true),
        "open" => families::slots(alloc, size, false),
        "closed" => families::slots(alloc, size, true),
        "header" => families::header(alloc, size),
        "total" => families::total(alloc, size),
        "rounded" => families::rounded(alloc, size),
        "beside" => families::beside(alloc, size),
        "rounds" => families::rounds(alloc, size),
        "joint" => families::joint(alloc, size),
        "heavy" => families::heavy(alloc, size),
        "dense" => families::dense(alloc, size),
        "deep" => families::deep(alloc, size),
        "parity" => families::parity(alloc, size),
        _ => bail!("no such family"),
    }
}

fn decided(alloc: Global, system: &System) -> Result<Decision> {
    ensure!(
        is_over(&system.formula, system.bounds.bounds.len()),
        "a variable without bounds"
    );
    Ok(decide(alloc, &system.formula, &system.bounds)?)
}

/// Decides one system, and counts the steps of its refutation.
fn run(rt: &HostRuntime, family: &str, size: u32) -> Result<()> {
    let alloc = rt.alloc();
    let system = system(alloc, family, size)?;
    match decided(alloc, &system)? {
        Decision::Solution(_) => println!(rt; "{family} {size} solved")?,
        Decision::Refuted(r) => {
            let steps = r.steps.len();
            let entries = entries_of(&r);
            println!(rt; "{family} {size} refuted: {steps} steps, {entries} entries")?;
        }
    }
    Ok(())
}

/// Decides one system of a small size.
fn show(rt: &HostRuntime, family: &str) -> Result<()> {
    let alloc = rt.alloc();
    let system = system(alloc, family, 10)?;
    match decided(alloc, &system)? {
        Decision::Solution(_) => println!(rt; "{family} 10 solved")?,
        Decision::Refuted(_) => println!(rt; "{family} 10 refuted")?,
    }
    Ok(())
}

fn main(rt: HostRuntime) -> Result<()> {
    let args: Vec<String> = env::args(&rt)?.collect(rt.alloc())?;
    match args.as_slice() {
        [_, family, size] => run(&rt, family, size.parse::<u32>()?),
        _ => {
            show(&rt, "chain")?;
            show(&rt, "cycle")?;
            show(&rt, "open")?;
            show(&rt, "closed")
        }
    }
}
