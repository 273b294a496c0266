ghost use Rattle.std.specs.Prelude.{◌≡◌, ℕ, ◌<◌, ◌^◌, All, length, IfOk, IfSome, IfNone, true, false};
ghost use Rattle.ipg_graph.specs.Graph.{graph_of, IsInside};
ghost use Rattle.ipg_graph.specs.Answers.{Start, IsNext, HasNoNext, IsNextAnswer, IsLastAnswer, RunsAreWhole};
ghost use Rattle.ipg_graph.specs.Search.{IsKept, listing};
ghost use Rattle.std.specs.Borrow.{sem};
ghost use Rattle.ipg_graph.specs.Lending.{LendsAnswer};

use crate::edge::Edge;
use crate::links::Links;
use crate::search::Search;
use std::alloc::{AllocError, Global};
use std::marker::Model;

/// The simple cycles of a graph, one by one, in lexicographic order of the numbers of their edges.
#[derive(Drop)]
pub struct Cycles {
    search: Search,
}

impl Model for Cycles {
    ghost use Rattle.ipg_graph.specs.Answers.{Listing};
    ghost use Rattle.ipg_graph.specs.Search.{IsKept, listing};

    ghost Value = { Listing };

    ghost view = { λ c. listing c.search };

    ghost invariant = { λ c. IsKept c.search };
}

impl Cycles {
    /// Takes the edges that are not dead. All the room that is ever needed is made here.
    pub fn new(alloc: Global, rules: u32, edges: &[Edge], dead: &[bool]) -> Result<Self, AllocError>
        requires few { length edges.now < 2 ^ 32 }
        requires flags { length dead.now ≡ length edges.now }
        requires inside { All (IsInside rules) edges.now }
        ensures graph { IfOk result (λ c. c.graph ≡ graph_of rules edges.now dead.now) }
        ensures start { IfOk result (λ c. c.at ≡ Start) }
    {
        let links = Links::new(alloc, rules, edges, dead)?;
        let search = Search::new(alloc, links)?;
        Ok(Cycles { search })
    }

    /// The edges of the next simple cycle: None where there is none, and from then on. Takes no memory.
    pub fn next(&mut self) -> Option<&[u32]>
        ensures* goes_on { sem 𝓛 (LendsAnswer self.entry result) }
        ensures found { IfSome result (λ c. IsNext self.old.graph self.old.at c.now) }
        ensures none { IfNone result (HasNoNext self.old.graph self.old.at) }
    {
        if self.advance() {
            return Some(self.search.found());
        }
        None
    }

    fn advance(&mut self) -> bool
        ensures graph { self.new.graph ≡ self.old.graph }
        ensures found { result ≡ true → IsNextAnswer self.old self.new }
        ensures none { result ≡ false → IsLastAnswer self.old self.new }
    {
        self.search.next()
    }
}

/// The law over whole runs: the answers up to the first None are all simple cycles, and nothing
/// else, each once and in ascending order.
pub fn runs_are_whole()
    ensures { RunsAreWhole }
{}
