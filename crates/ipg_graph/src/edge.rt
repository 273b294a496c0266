ghost use Rattle.std.specs.Prelude.{◌↔◌, All, IsTrue};
ghost use Rattle.ipg_graph.specs.Graph.{IsInside};

/// A call of one rule by another, and where it stands: alternative, term and branch, from 0.
#[derive(Clone, Copy, Debug, PartialEq, Eq)]
pub struct Edge {
    pub caller: u32,
    pub alt: u32,
    pub term: u32,
    pub branch: u32,
    pub callee: u32,
}

/// Whether both ends of each edge are below the number of rules, as `Cycles::new` requires.
pub fn are_inside(rules: u32, edges: &[Edge]) -> bool
    ensures { IsTrue result ↔ All (IsInside rules) edges.now }
{
    edges
        .iter()
        .all(|edge| edge.caller < rules && edge.callee < rules)
}
