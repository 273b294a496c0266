ghost use Rattle.std.specs.Prelude.{◌≡◌, ℕ, ◌<◌, ◌^◌, List, [], All, length, true, IfOk};
ghost use Rattle.ipg_graph.specs.Graph.{graph_of, IsInside};
ghost use Rattle.ipg_graph_parts.specs.Cyclic.{IsCircle, IsFlagged, IsOnCircle};
ghost use Rattle.ipg_graph_parts.specs.Labels.{label};

use crate::links::Links;
use crate::parts::parts_of;
use ipg_graph::Edge;
use std::alloc::{AllocError, Global};

/// Whether both ends of the edge are in one part.
fn is_inside(names: &[Option<u32>], edge: Edge) -> bool
    requires caller { edge.caller < length names.now }
    requires callee { edge.callee < length names.now }
    ensures same { result ≡ true → label names.now edge.caller ≡ label names.now edge.callee }
    ensures apart { label names.now edge.caller ≡ label names.now edge.callee → result ≡ true }
{
    names[edge.caller as usize] == names[edge.callee as usize]
}

/// Whether each edge lies on a circle of edges, each of which leads into the next. It takes the time of some walks over
/// the edges, however many circles there are.
pub fn edges_on_cycles(alloc: Global, rules: u32, edges: &[Edge]) -> Result<Vec<bool>, AllocError>
    requires few { length edges.now < 2 ^ 32 }
    requires inside { All (IsInside rules) edges.now }
    ensures one_each { IfOk result (λ flags. length flags.items ≡ length edges.now) }
    ensures every { let g = graph_of rules edges.now []
        in IfOk result (λ flags. (circle : List ℕ) → IsCircle g circle → All (IsFlagged flags.items) circle) }
    ensures only { let g = graph_of rules edges.now []
        in IfOk result (λ flags. (e : ℕ) → IsFlagged flags.items e → IsOnCircle g e) }
{
    let links = Links::new(alloc, rules, edges)?;
    let parts = parts_of(alloc, &links)?;
    let mut flags = Vec::with_capacity(alloc, edges.len())?;
    for edge in edges {
        flags.push(is_inside(parts.as_slice(), *edge))?;
    }
    Ok(flags)
}
