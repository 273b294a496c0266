ghost use Rattle.std.specs.Prelude.{◌≡◌, ◌<◌, ◌≤◌, ◌∷◌, [], length, take, IfOk, MatchOption};
ghost use Rattle.ipg_solve_potentials.specs.Trails.{stop_at, trail_at, PassesBy, AreStarts, edges_of};

use ipg_num::List;
use std::alloc::{AllocError, Global};

/// A node on a trail, the level there, and the number of the edge that leads to it.
#[derive(Clone, Copy)]
pub struct Stop {
    pub node: usize,
    pub level: i128,
    pub edge: usize,
}

/// Where the trail passes the node.
pub fn place_of(trail: &[Stop], node: usize) -> Option<usize>
    ensures { MatchOption result (PassesBy node trail.now) (λ at. (at < length trail.now) × ((stop_at trail.now at).node ≡ node)) }
{
    for (at, stop) in trail.iter().enumerate() {
        if stop.node == node {
            return Some(at);
        }
    }
    None
}

/// The trail of a node.
pub fn trail_of(trails: &[List<Stop>], node: usize) -> &[Stop]
    requires { node < length trails.now }
    ensures { result.now ≡ trail_at trails.now node }
{
    trails[node].as_slice()
}

/// The trail with a stop more, which comes first.
pub fn extended(
    alloc: Global,
    node: usize,
    level: i128,
    edge: usize,
    trail: &[Stop],
) -> Result<List<Stop>, AllocError>
    ensures { IfOk result (λ longer. longer ≡ record { node = node; level = level; edge = edge } ∷ trail.now) }
{
    let mut longer = Vec::new(alloc);
    longer.push(Stop { node, level, edge })?;
    longer.extend_from_slice(trail)?;
    Ok(List::from_vec(longer))
}

/// The edge of this number, and those that the trail came by since the place.
pub fn circle_of(
    alloc: Global,
    edge: usize,
    trail: &[Stop],
    place: usize,
) -> Result<List<u64>, AllocError>
    requires { place ≤ length trail.now }
    ensures { IfOk result (λ circle. circle ≡ edge ∷ edges_of (take place trail.now)) }
{
    let mut circle = List::new(alloc);
    circle.push(edge as u64)?;
    for stop in &trail[..place] {
        circle.push(stop.edge as u64)?;
    }
    Ok(circle)
}

/// For each node the trail that begins and ends there, at level 0.
pub fn start_trails(alloc: Global, nodes: usize) -> Result<Vec<List<Stop>>, AllocError>
    ensures { IfOk result (λ trails. AreStarts nodes trails.items) }
{
    let mut trails = Vec::new(alloc);
    for node in 0..nodes {
        trails.push(extended(alloc, node, 0, 0, &[])?)?;
    }
    Ok(trails)
}
