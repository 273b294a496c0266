//! The conditions of edges by their numbers, alone and along a cycle.

ghost use Rattle.std.specs.Prelude.{◌≡◌, ◌++◌, ◌<◌, length, IfOk, OnOk, Some, option_to_list};
ghost use Rattle.ipg_facts_laws.specs.Laws.{IsPart};
ghost use Rattle.ipg_proof.specs.Calls as spec;
ghost use Rattle.ipg_proof.specs.Seen.{seen};

use crate::calls::CallGraph;
use ipg_facts::keep;
use ipg_facts_forms::joint;
use ipg_facts_laws::laws::{conditions_are_parts, joint_is_part};
use ipg_facts_room::ask_room;
use ipg_lin::{Boxed, Formula};
use std::alloc::{AllocError, Global};

/// The conditions under which the call of the edge is made on its caller's whole part, and the bounds of their
/// variables, of which the first is the length of the part.
pub fn keep_of(alloc: Global, calls: CallGraph, edge: u32) -> Result<(Formula, Boxed), AllocError>
    requires { edge < length calls.edges.now }
    ensures is { IfOk result (λ part. spec.keep_of (seen calls.entry) edge ≡ Some part) }
    ensures part { IfOk result IsPart }
{
    conditions_are_parts();
    ask_room(alloc, calls.grammar, calls.edges[edge as usize])?;
    let part = keep(alloc, calls.grammar, calls.marks, calls.edges, edge)?;
    Ok(part)
}

fn put_keep(
    alloc: Global,
    parts: &mut Vec<(Formula, Boxed)>,
    calls: CallGraph,
    edge: u32,
) -> Result<(), AllocError>
    ensures { OnOk result (parts.new.items ≡ parts.old.items ++ option_to_list (spec.keep_of (seen calls.entry) edge)) }
{
    if calls.edges.len() <= edge as usize {
        return Ok(());
    }
    parts.push(keep_of(alloc, calls, edge)?)?;
    Ok(())
}

/// The conditions of a cycle's edges.
fn keeps(
    alloc: Global,
    calls: CallGraph,
    cycle: &[u32],
) -> Result<Vec<(Formula, Boxed)>, AllocError>
    ensures { IfOk result (λ parts. parts.items ≡ spec.keeps (seen calls.entry) cycle.now) }
{
    let mut parts = Vec::new(alloc);
    for edge in cycle {
        put_keep(alloc, &mut parts, calls, *edge)?;
    }
    Ok(parts)
}

/// The conditions of a cycle's edges at one length of the part. Numbers that are of no edge say nothing.
pub fn joint_of(
    alloc: Global,
    calls: CallGraph,
    cycle: &[u32],
) -> Result<(Formula, Boxed), AllocError>
    ensures is { IfOk result (λ made. made ≡ spec.joint_of (seen calls.entry) cycle.now) }
    ensures part { 0 < length (spec.keeps (seen calls.entry) cycle.now) → IfOk result IsPart }
{
    conditions_are_parts();
    joint_is_part();
    let parts = keeps(alloc, calls, cycle)?;
    let made = joint(alloc, parts.as_slice())?;
    Ok(made)
}
