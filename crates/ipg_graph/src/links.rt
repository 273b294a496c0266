ghost use Rattle.std.specs.Prelude.{◌≡◌, ℕ, ◌+◌, ◌<◌, ◌^◌, All, length, if◌then◌else◌, IfOk};
ghost use Rattle.ipg_graph.specs.Graph.{Graph, caller, callee, graph_of, ends, IsInside, IsLive, IsWhole};
ghost use Rattle.ipg_graph.specs.Chain.{IsFirst, callers_of, callees_of};

use crate::chain::Chain;
use crate::edge::Edge;
use std::alloc::{AllocError, Global};
use std::marker::Model;

/// The edges that are not dead, found by either end.
#[derive(Drop)]
pub struct Links {
    rules: u32,
    callers: Chain,
    callees: Chain,
}

impl Model for Links {
    ghost Value = { Graph };

    ghost view = { λ l. record { rules = l.rules; callers = l.callers.keys; callees = l.callees.keys } };

    ghost invariant = { λ l. IsWhole (record { rules = l.rules; callers = l.callers.keys; callees = l.callees.keys })
        × ((l.callers.limit ≡ l.rules) × (l.callees.limit ≡ l.rules)) };
}

/// A dead edge has the number of no rule at its end.
fn end_of(dead: bool, rules: u32, end: u32) -> u32
    ensures { result ≡ (if dead then rules else end) }
{
    if dead { rules } else { end }
}

impl Links {
    pub fn new(alloc: Global, rules: u32, edges: &[Edge], dead: &[bool]) -> Result<Self, AllocError>
        requires few { length edges.now < 2 ^ 32 }
        requires flags { length dead.now ≡ length edges.now }
        requires inside { All (IsInside rules) edges.now }
        ensures { IfOk result (λ l. l ≡ graph_of rules edges.now dead.now) }
    {
        let mut callers = Vec::with_capacity(alloc, edges.len())?;
        let mut callees = Vec::with_capacity(alloc, edges.len())?;
        for at in 0..edges.len() {
            let edge = edges[at];
            callers.push(end_of(dead[at], rules, edge.caller))?;
            callees.push(end_of(dead[at], rules, edge.callee))?;
        }
        Ok(Links {
            rules,
            callers: Chain::new(alloc, callers, rules)?,
            callees: Chain::new(alloc, callees, rules)?,
        })
    }

    pub fn rules(&self) -> u32
        ensures { result ≡ self.now.rules }
    {
        self.rules
    }

    /// How many edges there are, dead ones too.
    pub fn len(&self) -> u32
        ensures value { result ≡ length self.now.callers }
        ensures whole { IsWhole self.now }
    {
        self.callers.len()
    }

    /// The edge's caller; the number of rules where it is dead.
    pub fn caller(&self, edge: u32) -> u32
        requires { edge < length self.now.callers }
        ensures { result ≡ caller self.now edge }
    {
        self.callers.key(edge)
    }

    pub fn callee(&self, edge: u32) -> u32
        requires within { edge < length self.now.callers }
        requires live { IsLive self.now edge }
        ensures value { result ≡ callee self.now edge }
        ensures inside { result < self.now.rules }
    {
        self.callees.key(edge)
    }

    /// The next edge of the same caller.
    pub fn next_out(&self, edge: u32) -> u32
        requires within { edge < length self.now.callers }
        requires live { IsLive self.now edge }
        ensures { IsFirst (callers_of self.now) (caller self.now edge) (edge + 1) result }
    {
        self.callers.next(edge)
    }

    /// The first edge that the rule calls by.
    pub fn first_out(&self, rule: u32) -> u32
        requires { rule < self.now.rules }
        ensures { IsFirst (callers_of self.now) rule 0 result }
    {
        self.callers.first(rule)
    }

    /// The next edge of the same callee.
    pub fn next_in(&self, edge: u32) -> u32
        requires within { edge < length self.now.callers }
        requires live { callee self.now edge < self.now.rules }
        ensures { IsFirst (callees_of self.now) (callee self.now edge) (edge + 1) result }
    {
        self.callees.next(edge)
    }

    /// The first edge by which the rule is called.
    pub fn first_in(&self, rule: u32) -> u32
        requires { rule < self.now.rules }
        ensures { IsFirst (callees_of self.now) rule 0 result }
    {
        self.callees.first(rule)
    }
}
