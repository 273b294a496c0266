//! Cycles whose conditions can't hold together, up to the first whose can.

ghost use Rattle.std.specs.Prelude.{◌≡◌, ◌<◌, length, map, IfOk, IsTrue, MatchResult};
ghost use Rattle.ipg_facts_edges.specs.Edges.{edges_of};
ghost use Rattle.ipg_graph.specs.Answers.{End};
ghost use Rattle.ipg_graph.specs.Lending.{AnswersWith};
ghost use Rattle.ipg_proof.specs.Calls.{keeps, cycle_checks, live_graph};
ghost use Rattle.ipg_proof.specs.Seen.{seen};
ghost use Rattle.ipg_term.specs.Refuted.{AreRefuted, IsLoop, IsReasonIn};

use crate::fault::TermWhy;
use ipg_cert::Refutation;
use ipg_cert::laws::checks_refute;
use ipg_graph::Cycles;
use ipg_num::List;
use ipg_proof::{CallGraph, joint_of, live_cycles};
use ipg_solve::Decision;
use ipg_solve_values::decide_least;
use std::alloc::{AllocError, Global};

fn next_cycle(alloc: Global, cycles: &mut Cycles) -> Result<Option<List<u32>>, AllocError>
    ensures { IfOk result (AnswersWith cycles.old cycles.new) }
{
    match cycles.next() {
        Some(cycle) => Ok(Some(List::from_vec(Vec::from_slice(alloc, cycle)?))),
        None => Ok(None),
    }
}

/// The cycle with the refutation of its joint conditions; it may loop where they can hold.
fn refuted_cycle(
    alloc: Global,
    calls: CallGraph,
    cycle: List<u32>,
) -> Result<(List<u32>, Refutation), TermWhy>
    requires { 0 < length (keeps (seen calls) cycle) }
    ensures { MatchResult result (λ entry. (entry.0 ≡ cycle) × IsTrue (cycle_checks (seen calls.entry) entry)) (IsLoop (seen calls.entry) cycle) }
{
    let joint = joint_of(alloc, calls, cycle.as_slice())?;
    match decide_least(alloc, &joint.0, &joint.1, 0)? {
        Decision::Refuted(refutation) => Ok((cycle, refutation)),
        Decision::Solution(values) => Err(TermWhy::MayLoop { cycle, values }),
    }
}

/// What the first cycle of the edges that aren't dead is, before all edges are decided.
#[derive(Clone, Copy)]
pub enum Look {
    /// There is none, so that no other edge needs to be decided.
    NoCycle,
    /// It is refuted, though none of its edges is, and has to be listed.
    Refuted,
    /// Some edge of it isn't decided.
    Open,
}

fn are_below(edges: &[u32], decided: u32) -> bool {
    for edge in edges {
        if decided <= *edge {
            return false;
        }
    }
    true
}

fn look_at(alloc: Global, calls: CallGraph, cycle: List<u32>, decided: u32) -> Result<Look, TermWhy>
    requires { 0 < length (keeps (seen calls) cycle) }
    ensures { MatchResult result (λ _. Unit) (IsLoop (seen calls.entry) cycle) }
{
    if !are_below(cycle.as_slice(), decided) {
        return Ok(Look::Open);
    }
    match refuted_cycle(alloc, calls, cycle) {
        Ok(_) => Ok(Look::Refuted),
        Err(why) => Err(why),
    }
}

/// Looks at the first cycle where the edges below a number are decided; it may loop.
pub fn first_look(
    alloc: Global,
    calls: CallGraph,
    dead: &[(u32, Refutation)],
    decided: u32,
) -> Result<Look, TermWhy>
    requires { calls.edges.now ≡ edges_of calls.grammar.now }
    ensures { let graph = live_graph calls.entry.grammar.now (map (λ entry. entry.0) dead.now)
        in MatchResult result (λ _. Unit) (IsReasonIn graph (seen calls.entry)) }
{
    let mut listing = live_cycles(alloc, calls.grammar, calls.edges, dead)?;
    let first = next_cycle(alloc, &mut listing)?;
    match first {
        None => Ok(Look::NoCycle),
        Some(cycle) => look_at(alloc, calls, cycle, decided),
    }
}

/// The simple cycles of the edges that aren't dead, each with a refutation; or the first that has none.
pub fn refuted_cycles(
    alloc: Global,
    calls: CallGraph,
    dead: &[(u32, Refutation)],
) -> Result<List<(List<u32>, Refutation)>, TermWhy>
    requires { calls.edges.now ≡ edges_of calls.grammar.now }
    ensures { let graph = live_graph calls.entry.grammar.now (map (λ entry. entry.0) dead.now)
        in MatchResult result (AreRefuted graph (seen calls.entry) End) (IsReasonIn graph (seen calls.entry)) }
{
    checks_refute();
    let mut cycles = live_cycles(alloc, calls.grammar, calls.edges, dead)?;
    let mut refuted = List::new(alloc);
    while let Some(cycle) = next_cycle(alloc, &mut cycles)? {
        let entry = refuted_cycle(alloc, calls, cycle)?;
        refuted.push(entry)?;
    }
    Ok(refuted)
}
