//! Checks refutations of a stated size: `tool_cert combine|splits COUNT`.
#![tactic(auto)]

#[cfg(test)]
mod tests;

use anyhow::{Result, bail};
use ipg_cert::{Refutation, Step, check};
use ipg_lin::{Boxed, Formula, LinFault, Linear};
use ipg_num::List;
use std::alloc::{AllocError, Global};
use std::env;

/// `1 <= 0`, a fact that no assignment makes hold.
fn never(alloc: Global) -> std::result::Result<Formula, LinFault> {
    Ok(Formula::Atom(Linear::new(alloc, &[], 1)?))
}

/// So many variables, each at least 1 and at most 0, and the sum of all their bounds.
fn bounds_that_cross(
    alloc: Global,
    count: u32,
) -> std::result::Result<(Boxed, Refutation), AllocError> {
    let mut bounds = List::new(alloc);
    let mut entries = Vec::new(alloc);
    for i in 0..count {
        bounds.push((1, 0))?;
        entries.push((1, 2 * u64::from(i)))?;
        entries.push((1, 2 * u64::from(i) + 1))?;
    }
    let mut steps = List::new(alloc);
    steps.push(Step::Combine(List::from_vec(entries)))?;
    Ok((Boxed { bounds }, Refutation { steps }))
}

fn leaf(alloc: Global) -> std::result::Result<Step, AllocError> {
    Ok(Step::Combine(List::from_vec(Vec::from_slice(alloc, &[(1, 2)])?)))
}

/// One variable, and a chain of Splits whose every leaf takes the fact `1 <= 0`.
fn chain_of_splits(
    alloc: Global,
    count: u32,
) -> std::result::Result<(Boxed, Refutation), AllocError> {
    let mut bounds = List::new(alloc);
    bounds.push((0, i64::from(count)))?;
    let mut steps = List::new(alloc);
    for i in 0..count {
        steps.push(Step::Split {
            var: 0,
            at: i64::from(i),
        })?;
        steps.push(leaf(alloc)?)?;
    }
    steps.push(leaf(alloc)?)?;
    Ok((Boxed { bounds }, Refutation { steps }))
}

fn run(rt: &HostRuntime, what: &str, count: u32) -> Result<()> {
    let alloc = rt.alloc();
    let made = match what {
        "combine" => bounds_that_cross(alloc, count)?,
        "splits" => chain_of_splits(alloc, count)?,
        _ => bail!("combine or splits"),
    };
    let (b, r) = made;
    let Ok(f) = never(alloc) else {
        bail!("no memory");
    };
    println!(rt; "{what} {count} checks {}", check(alloc, &f, &b, &r)?)?;
    Ok(())
}

fn main(rt: HostRuntime) -> Result<()> {
    let args: Vec<String> = env::args(&rt)?.collect(rt.alloc())?;
    match args.as_slice() {
        [_, what, count] => run(&rt, what, count.parse::<u32>()?),
        _ => {
            run(&rt, "combine", 100)?;
            run(&rt, "splits", 100)
        }
    }
}
