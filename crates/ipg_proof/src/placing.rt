//! Which entry is out of place.
ghost use Rattle.std.specs.Prelude.{◌≡◌, ◌+◌, ◌<◌, ◌^◌, map, length, IfOk, MatchOption};
ghost use Rattle.ipg_facts_edges.specs.Edges.{edges_of};
ghost use Rattle.ipg_graph.specs.Answers.{Start, IsRun};
ghost use Rattle.ipg_proof.specs.Calls.{dead_edges, cycles_of, live_graph};
ghost use Rattle.ipg_proof.specs.Places.{Rise, IsFirstOff, IsFirstOther, AreInPlace, IsMismatch};
ghost use Rattle.ipg_proof.specs.Seen.{Takes};

use crate::certificate::Certificate;
use crate::live::live_cycles;
use ipg_cert::Refutation;
use ipg_core::accepted::Core;
use ipg_graph::{Cycles, Edge};
use ipg_num::List;
use std::alloc::{AllocError, Global};

/// The first dead edge that is no edge, or not above the one before it.
fn off(edges: usize, dead: &[(u32, Refutation)]) -> Option<u64>
    ensures { MatchOption result (Rise edges 0 (map (λ entry. entry.0) dead.now)) (λ at. IsFirstOff edges 0 0 (map (λ entry. entry.0) dead.now) at) }
{
    let mut low = 0u64;
    for (at, entry) in dead.iter().enumerate() {
        let edge = u64::from(entry.0);
        if edge < low || edges as u64 <= edge {
            return Some(at as u64);
        }
        low = edge + 1;
    }
    None
}

/// Lists the next cycle: whether it is this one.
fn is_due(cycles: &mut Cycles, cycle: &[u32]) -> bool
    ensures { Takes cycles.old cycles.new cycle.now result }
{
    match cycles.next() {
        Some(due) => due == cycle,
        None => false,
    }
}

/// The first cycle that isn't the one due at its place, or where one is missing; the first one is entry number `from`.
fn other(cycles: &mut Cycles, from: u64, listed: &[(List<u32>, Refutation)]) -> Option<u64>
    requires { from + length listed.now < 2 ^ 64 }
    ensures { MatchOption result (IsRun cycles.old.graph cycles.old.at (map (λ entry. entry.0) listed.now))
        (λ at. IsFirstOther cycles.old.graph cycles.old.at from (map (λ entry. entry.0) listed.now) at) }
{
    for (at, entry) in listed.iter().enumerate() {
        if !is_due(cycles, entry.0.as_slice()) {
            return Some(from + at as u64);
        }
    }
    if cycles.next().is_some() {
        return Some(from + listed.len() as u64);
    }
    None
}

/// The first cycle that is out of place.
fn misplaced_cycle(
    alloc: Global,
    g: &Core,
    edges: &[Edge],
    c: &Certificate,
) -> Result<Option<u64>, AllocError>
    requires { edges.now ≡ edges_of g.now }
    ensures { IfOk result (λ at. MatchOption at (IsRun (live_graph g.now (dead_edges c.now)) Start (cycles_of c.now))
        (λ at. IsFirstOther (live_graph g.now (dead_edges c.now)) Start (length c.now.dead) (cycles_of c.now) at)) }
{
    let dead = c.dead.as_slice();
    let mut cycles = live_cycles(alloc, g, edges, dead)?;
    Ok(other(&mut cycles, dead.len() as u64, c.cycles.as_slice()))
}

/// The first entry that is out of place.
pub fn misplaced(
    alloc: Global,
    g: &Core,
    edges: &[Edge],
    c: &Certificate,
) -> Result<Option<u64>, AllocError>
    requires { edges.now ≡ edges_of g.now }
    ensures { IfOk result (λ at. MatchOption at (AreInPlace g.now c.now) (λ at. IsMismatch g.now c.now at)) }
{
    match off(edges.len(), c.dead.as_slice()) {
        Some(at) => Ok(Some(at)),
        None => misplaced_cycle(alloc, g, edges, c),
    }
}
