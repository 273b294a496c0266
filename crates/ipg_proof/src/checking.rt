//! Which entry's refutation does not check.
ghost use Rattle.std.specs.Prelude.{◌≡◌, ◌+◌, ◌<◌, ◌^◌, map, length, IfOk};
ghost use Rattle.ipg_proof.specs.Calls as spec;
ghost use Rattle.ipg_proof.specs.Proves.{first_false};
ghost use Rattle.ipg_proof.specs.Seen.{seen};

use crate::calls::CallGraph;
use crate::certificate::Certificate;
use crate::conditions::{joint_of, keep_of};
use ipg_cert::{Refutation, check};
use ipg_num::List;
use std::alloc::{AllocError, Global};

/// A dead edge's refutation checks against the edge's conditions.
fn edge_checks(
    alloc: Global,
    calls: CallGraph,
    entry: &(u32, Refutation),
) -> Result<bool, AllocError>
    ensures { IfOk result (λ on. on ≡ spec.edge_checks (seen calls.entry) entry.now) }
{
    let edge = entry.0;
    if calls.edges.len() <= edge as usize {
        return Ok(false);
    }
    let part = keep_of(alloc, calls, edge)?;
    check(alloc, &part.0, &part.1, &entry.1)
}

/// A cycle's refutation checks against the joint of its edges' conditions.
fn cycle_checks(
    alloc: Global,
    calls: CallGraph,
    entry: &(List<u32>, Refutation),
) -> Result<bool, AllocError>
    ensures { IfOk result (λ on. on ≡ spec.cycle_checks (seen calls.entry) entry.now) }
{
    let joint = joint_of(alloc, calls, entry.0.as_slice())?;
    check(alloc, &joint.0, &joint.1, &entry.1)
}

fn unsound_edge(
    alloc: Global,
    calls: CallGraph,
    dead: &[(u32, Refutation)],
) -> Result<Option<u64>, AllocError>
    ensures { IfOk result (λ at. at ≡ first_false 0 (map (spec.edge_checks (seen calls.entry)) dead.now)) }
{
    for (at, entry) in dead.iter().enumerate() {
        if !edge_checks(alloc, calls, entry)? {
            return Ok(Some(at as u64));
        }
    }
    Ok(None)
}

/// The first cycle whose refutation does not check, where the first one is entry number `from`.
fn unsound_cycle(
    alloc: Global,
    calls: CallGraph,
    from: u64,
    cycles: &[(List<u32>, Refutation)],
) -> Result<Option<u64>, AllocError>
    requires { from + length cycles.now < 2 ^ 64 }
    ensures { IfOk result (λ at. at ≡ first_false from (map (spec.cycle_checks (seen calls.entry)) cycles.now)) }
{
    for (at, entry) in cycles.iter().enumerate() {
        if !cycle_checks(alloc, calls, entry)? {
            return Ok(Some(from + at as u64));
        }
    }
    Ok(None)
}

/// The first entry whose refutation does not check.
pub fn unsound(alloc: Global, calls: CallGraph, c: &Certificate) -> Result<Option<u64>, AllocError>
    ensures { IfOk result (λ at. at ≡ first_false 0 (spec.checked (seen calls.entry) c.now)) }
{
    let dead = c.dead.as_slice();
    match unsound_edge(alloc, calls, dead)? {
        Some(at) => Ok(Some(at)),
        None => unsound_cycle(alloc, calls, dead.len() as u64, c.cycles.as_slice()),
    }
}
