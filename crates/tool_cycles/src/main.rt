//! Counts the simple cycles of a graph of a known shape, as in `tool_cycles complete 9`.
#![tactic(auto)]

mod shapes;
#[cfg(test)]
mod tests;

use anyhow::{Context, Result, bail, ensure};
use ipg_graph::{Cycles, are_inside};
use shapes::Shape;
use std::env;

/// The graph that the words name: a shape, and how large it is.
fn shape_of(name: &str, size: u32) -> Result<Shape> {
    match name {
        "ladder" => Ok(Shape::Ladder(size)),
        "looped" => Ok(Shape::LoopedLadder(size)),
        "complete" => Ok(Shape::Complete(size)),
        "ring" => Ok(Shape::Ring(size)),
        "forward" => Ok(Shape::Forward(size)),
        _ => bail!("no shape {name:?}: ladder, looped, complete, ring or forward"),
    }
}

fn count(cycles: &mut Cycles) -> u64 {
    let mut found = 0u64;
    while let Some(_) = cycles.next() {
        found = found.saturating_add(1);
    }
    found
}

fn main(rt: HostRuntime) -> Result<()> {
    let mut words = env::args(&rt)?.skip(1);
    let name = words.next().context("tool_cycles SHAPE SIZE")?;
    let size = words.next().context("tool_cycles SHAPE SIZE")?;
    let shape = shape_of(name.as_str(), size.parse::<u32>().context("the size")?)?;
    let rules = shape.rules();
    let edges = shape.edges(rt.alloc())?;
    ensure!(are_inside(rules, edges.as_slice()), "too large");
    ensure!(edges.len() < 1_000_000, "too large");
    let dead = vec![in rt.alloc(); false; edges.len()]?;
    let mut cycles = Cycles::new(rt.alloc(), rules, edges.as_slice(), dead.as_slice())?;
    let found = count(&mut cycles);
    println!(rt; "{found}")?;
    Ok(())
}
