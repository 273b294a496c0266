//! Edges whose own conditions can't hold.

ghost use Rattle.std.specs.Prelude.{◌≡◌, ◌+◌, ◌<◌, [], length, IfOk, IfSome, OnOk, IsTrue, MatchResult};
ghost use Rattle.ipg_facts_edges.specs.Edges.{edges_of};
ghost use Rattle.ipg_proof.specs.Calls.{edge_checks, live_graph};
ghost use Rattle.ipg_proof.specs.Seen.{seen};
ghost use Rattle.ipg_term.specs.Refuted.{AreDead, IsReasonIn};

use crate::cycles::{Look, first_look};
use crate::fault::TermWhy;
use ipg_cert::Refutation;
use ipg_facts_laws::laws::{edges_are_few, edges_are_inside};
use ipg_graph_parts::edges_on_cycles;
use ipg_num::List;
use ipg_proof::laws::{live_cycles_are_cycles, loops_are_live};
use ipg_proof::{CallGraph, keep_of};
use ipg_solve::{Decision, decide};
use std::alloc::{AllocError, Global};

fn refuted_edge(
    alloc: Global,
    calls: CallGraph,
    edge: u32,
) -> Result<Option<Refutation>, AllocError>
    requires { edge < length calls.edges.now }
    ensures { IfOk result (λ found. IfSome found (λ r. IsTrue (edge_checks (seen calls.entry) (edge, r)))) }
{
    let part = keep_of(alloc, calls, edge)?;
    match decide(alloc, &part.0, &part.1)? {
        Decision::Refuted(r) => Ok(Some(r)),
        Decision::Solution(_) => Ok(None),
    }
}

/// When to look at the cycles that are left: each time behind many more edges than before.
#[derive(Clone, Copy)]
struct Turns {
    /// How many edges are decided before the next look.
    left: u32,
    /// How many were before the last one.
    before: u32,
    /// No cycle was left.
    clear: bool,
}

/// How many edges on cycles are decided before the first look.
const FIRST_TURN: u32 = 64;

/// How many times as many before each later one.
const MORE: u32 = 8;

impl Turns {
    fn new() -> Turns {
        Turns {
            left: FIRST_TURN,
            before: FIRST_TURN,
            clear: false,
        }
    }

    /// Counts an edge: true where it is time for a look.
    fn next(&mut self) -> bool {
        if self.clear {
            return false;
        }
        if 0 < self.left {
            self.left -= 1;
            return false;
        }
        self.before = self.before.saturating_mul(MORE);
        self.left = self.before;
        true
    }

    /// What was seen: true where no cycle is left. Where one has to be listed, no later look is worth its while.
    fn go_on(&mut self, seen: Look) -> bool {
        match seen {
            Look::NoCycle => {
                self.clear = true;
                true
            }
            Look::Refuted => {
                self.left = u32::MAX;
                false
            }
            Look::Open => false,
        }
    }
}

fn look_now(
    alloc: Global,
    calls: CallGraph,
    dead: &[(u32, Refutation)],
    edge: u32,
) -> Result<Look, TermWhy>
    requires edges { calls.edges.now ≡ edges_of calls.grammar.now }
    requires dead { AreDead (seen calls) edge dead.now }
    ensures { MatchResult result (λ _. Unit) (IsReasonIn (live_graph calls.entry.grammar.now []) (seen calls.entry)) }
{
    live_cycles_are_cycles();
    loops_are_live();
    first_look(alloc, calls, dead, edge)
}

/// Whether no cycle is left of the edges that aren't dead, as far as that was looked for; the first may loop.
fn is_clear(
    alloc: Global,
    turns: &mut Turns,
    calls: CallGraph,
    dead: &[(u32, Refutation)],
    edge: u32,
) -> Result<bool, TermWhy>
    requires edges { calls.edges.now ≡ edges_of calls.grammar.now }
    requires dead { AreDead (seen calls) edge dead.now }
    ensures { MatchResult result (λ _. Unit) (IsReasonIn (live_graph calls.entry.grammar.now []) (seen calls.entry)) }
{
    if !turns.next() {
        return Ok(turns.clear);
    }
    match look_now(alloc, calls, dead, edge) {
        Ok(seen) => Ok(turns.go_on(seen)),
        Err(why) => Err(why),
    }
}

/// Puts the edge behind the dead ones, if its own conditions can't hold.
fn put_refuted(
    alloc: Global,
    dead: &mut List<(u32, Refutation)>,
    calls: CallGraph,
    edge: u32,
) -> Result<(), AllocError>
    requires edge { edge < length calls.edges.now }
    requires before { AreDead (seen calls) edge dead.old }
    ensures { OnOk result (AreDead (seen calls.entry) (edge + 1) dead.new) }
{
    match refuted_edge(alloc, calls, edge)? {
        Some(refutation) => dead.push((edge, refutation)),
        None => Ok(()),
    }
}

/// The same, unless no cycle is left; the first may loop.
fn put_dead(
    alloc: Global,
    dead: &mut List<(u32, Refutation)>,
    turns: &mut Turns,
    calls: CallGraph,
    edge: u32,
) -> Result<(), TermWhy>
    requires edge { edge < length calls.edges.now }
    requires edges { calls.edges.now ≡ edges_of calls.grammar.now }
    requires before { AreDead (seen calls) edge dead.old }
    ensures { MatchResult result (λ _. AreDead (seen calls.entry) (edge + 1) dead.new)
        (IsReasonIn (live_graph calls.entry.grammar.now []) (seen calls.entry)) }
{
    match is_clear(alloc, turns, calls, dead.as_slice(), edge) {
        Err(why) => Err(why),
        Ok(true) => Ok(()),
        Ok(false) => {
            put_refuted(alloc, dead, calls, edge)?;
            Ok(())
        }
    }
}

/// Edges on cycles that the solver refutes by themselves, by rising number, each with its refutation: all of them, or so many
/// that no cycle is left of the others. An edge that lies on no cycle needs none, however hard it is to decide. Where it is
/// seen on the way that the first cycle may loop, that is the answer.
pub fn dead_edges(alloc: Global, calls: CallGraph) -> Result<List<(u32, Refutation)>, TermWhy>
    requires { calls.edges.now ≡ edges_of calls.grammar.now }
    ensures { MatchResult result (AreDead (seen calls.entry) (length calls.entry.edges.now))
        (IsReasonIn (live_graph calls.entry.grammar.now []) (seen calls.entry)) }
{
    edges_are_inside();
    edges_are_few();
    let rules = calls.grammar.rules().len() as u32;
    let on_cycles = edges_on_cycles(alloc, rules, calls.edges)?;
    let mut dead = List::new(alloc);
    let mut turns = Turns::new();
    for edge in 0..calls.edges.len() as u32 {
        if on_cycles[edge as usize] {
            put_dead(alloc, &mut dead, &mut turns, calls, edge)?;
        }
    }
    Ok(dead)
}
