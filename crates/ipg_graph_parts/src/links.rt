ghost use Rattle.std.specs.Prelude.{◌≡◌, ℕ, ◌<◌, ◌^◌, [], All, length, IfOk};
ghost use Rattle.ipg_graph.specs.Graph.{Graph, graph_of, IsInside, IsWhole};
ghost use Rattle.ipg_graph_parts.specs.Chain.{callers_of, callees_of};

use crate::chain::Chain;
use ipg_graph::Edge;
use std::alloc::{AllocError, Global};
use std::marker::Model;

/// The edges of a graph, found by either end.
#[derive(Drop)]
pub struct Links {
    callers: Chain,
    callees: Chain,
}

impl Model for Links {
    ghost Value = { Graph };

    ghost view = { λ l. record { rules = l.callers.limit; callers = l.callers.keys; callees = l.callees.keys } };

    ghost invariant = { λ l. IsWhole (record { rules = l.callers.limit; callers = l.callers.keys; callees = l.callees.keys })
        × (l.callees.limit ≡ l.callers.limit) };
}

impl Links {
    pub fn new(alloc: Global, rules: u32, edges: &[Edge]) -> Result<Self, AllocError>
        requires few { length edges.now < 2 ^ 32 }
        requires inside { All (IsInside rules) edges.now }
        ensures { IfOk result (λ l. l ≡ graph_of rules edges.now []) }
    {
        let mut callers = Vec::with_capacity(alloc, edges.len())?;
        let mut callees = Vec::with_capacity(alloc, edges.len())?;
        for edge in edges {
            callers.push(edge.caller)?;
            callees.push(edge.callee)?;
        }
        Ok(Links {
            callers: Chain::new(alloc, callers, rules)?,
            callees: Chain::new(alloc, callees, rules)?,
        })
    }

    pub fn rules(&self) -> u32
        ensures value { result ≡ self.now.rules }
        ensures whole { IsWhole self.now }
    {
        self.callers.limit()
    }

    /// The edges by caller.
    pub fn callers(&self) -> &Chain
        ensures { result.now ≡ callers_of self.now }
    {
        &self.callers
    }

    /// The edges by callee.
    pub fn callees(&self) -> &Chain
        ensures { result.now ≡ callees_of self.now }
    {
        &self.callees
    }
}
