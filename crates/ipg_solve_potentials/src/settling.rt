ghost use Rattle.std.specs.Prelude.{◌^◌, ◌<◌, ◌≤◌, length, IfOk};
ghost use Rattle.ipg_solve_potentials.specs.Falls.{AreEdges, Settles, IsExact};
ghost use Rattle.ipg_solve_potentials.specs.Trails.{IsWrong, State, Lowers};

use crate::difference::Difference;
use crate::level::{next_wrong, put_level, reached};
use crate::trail::{Stop, circle_of, extended, place_of, start_trails, trail_of};
use ipg_num::List;
use std::alloc::{AllocError, Global};

/// What a graph comes to: potentials of its nodes, or a reason that there are none.
#[derive(Drop)]
pub enum Potentials {
    /// A level for each node: along each edge they fall as far as it says.
    Levels(List<i128>),
    /// The numbers of the edges of a circle that falls, the last one first.
    Circle(List<u64>),
}

/// Lowers the end of an edge to where the edge says, or finds that the way there goes in a circle.
fn lower(
    alloc: Global,
    n: usize,
    edges: &[Difference],
    levels: &mut Vec<i128>,
    trails: &mut Vec<List<Stop>>,
) -> Result<Option<List<u64>>, AllocError>
    requires edges { AreEdges (length levels.old.items) edges.now }
    requires few { length levels.old.items ≤ 2 ^ 22 }
    requires state { State edges.now levels.old.items trails.old.items }
    requires wrong { IsWrong levels.old.items edges.now n }
    ensures { IfOk result (λ found. Lowers edges.now levels.old.items levels.new.items trails.new.items found) }
{
    let edge = edges[n];
    let level = reached(levels, edge);
    if let Some(place) = place_of(trail_of(trails, edge.from), edge.to) {
        let circle = circle_of(alloc, n, trail_of(trails, edge.from), place)?;
        return Ok(Some(circle));
    }
    let longer = extended(alloc, edge.to, level, n, trail_of(trails, edge.from))?;
    trails[edge.to] = longer;
    put_level(levels, edge.to, level);
    Ok(None)
}

fn levels_or_circle(
    alloc: Global,
    nodes: usize,
    edges: &[Difference],
) -> Result<Potentials, AllocError>
    requires edges { AreEdges nodes edges.now }
    requires few { nodes ≤ 2 ^ 22 }
    ensures { IfOk result (λ settled. Settles nodes edges.now settled) }
{
    let mut levels = vec![in alloc; 0i128; nodes]?;
    let mut trails = start_trails(alloc, nodes)?;
    let mut from = 0;
    while let Some(n) = next_wrong(&levels, edges, from) {
        if let Some(circle) = lower(alloc, n, edges, &mut levels, &mut trails)? {
            return Ok(Potentials::Circle(circle));
        }
        from = n;
    }
    Ok(Potentials::Levels(List::from_vec(levels)))
}

/// Levels that fall along each edge as far as it says, or a circle of at most as many edges as nodes
/// whose falls sum up to more than 0, so that there are no such levels. Each edge joins two of the
/// `nodes` nodes, of which there are at most 2^22, and no fall is above 2^64 in size.
pub fn settle(alloc: Global, nodes: usize, edges: &[Difference]) -> Result<Potentials, AllocError>
    requires edges { AreEdges nodes edges.now }
    requires few { nodes ≤ 2 ^ 22 }
    ensures settled { IfOk result (λ settled. Settles nodes edges.now settled) }
    ensures exact { IfOk result (λ settled. IsExact edges.now settled) }
{
    let settled = levels_or_circle(alloc, nodes, edges)?;
    Ok(settled)
}
