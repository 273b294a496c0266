//! The cycles of the edges that aren't dead.

ghost use Rattle.std.specs.Prelude.{◌≡◌, map, replicate, false, true, slice_set, IfOk};
ghost use Rattle.ipg_facts_edges.specs.Edges.{edges_of};
ghost use Rattle.ipg_graph.specs.Answers.{Start};
ghost use Rattle.ipg_proof.specs.Calls.{with_set, live_graph};

use ipg_cert::Refutation;
use ipg_core::accepted::Core;
use ipg_facts_laws::laws::{edges_are_few, edges_are_inside};
use ipg_graph::{Cycles, Edge};
use std::alloc::{AllocError, Global};

fn set(flags: &mut Vec<bool>, at: u32)
    ensures { flags.new.items ≡ slice_set flags.old.items at true }
{
    if (at as usize) < flags.len() {
        flags[at as usize] = true;
    }
}

/// Whether each edge is dead.
fn flags(alloc: Global, edges: usize, dead: &[(u32, Refutation)]) -> Result<Vec<bool>, AllocError>
    ensures { IfOk result (λ flags. flags.items ≡ with_set (replicate edges false) (map (λ entry. entry.0) dead.now)) }
{
    let mut flags = vec![in alloc; false; edges]?;
    for entry in dead {
        set(&mut flags, entry.0);
    }
    Ok(flags)
}

/// The simple cycles of the grammar's edges but for the dead ones, which are told by their numbers.
pub fn live_cycles(
    alloc: Global,
    g: &Core,
    edges: &[Edge],
    dead: &[(u32, Refutation)],
) -> Result<Cycles, AllocError>
    requires { edges.now ≡ edges_of g.now }
    ensures graph { IfOk result (λ cycles. cycles.graph ≡ live_graph g.now (map (λ entry. entry.0) dead.now)) }
    ensures start { IfOk result (λ cycles. cycles.at ≡ Start) }
{
    let flags = flags(alloc, edges.len(), dead)?;
    edges_are_inside();
    edges_are_few();
    let rules = g.rules().len() as u32;
    let cycles = Cycles::new(alloc, rules, edges, flags.as_slice())?;
    Ok(cycles)
}
