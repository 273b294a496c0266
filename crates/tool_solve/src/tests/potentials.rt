//! Levels of nodes, and rings that have none.

ghost use Rattle.std.specs.Prelude.{◌≤◌, IsTrue};
ghost use Rattle.ipg_solve_potentials.specs.Falls.{IsEdge, AreEdges};

use ipg_solve_potentials::{Difference, Potentials, settle};
use std::alloc::Global;
use std::test::Fail;

fn is_edge(nodes: usize, edge: Difference) -> bool
    ensures { IsTrue result → IsEdge nodes edge }
{
    edge.from < nodes && edge.to < nodes && edge.fall.unsigned_abs() <= 1 << 64
}

fn are_edges(nodes: usize, edges: &[Difference]) -> bool
    ensures { IsTrue result → AreEdges nodes edges.now }
{
    for n in 0..edges.len() {
        if !is_edge(nodes, edges[n]) {
            return false;
        }
    }
    true
}

fn settled(alloc: Global, nodes: usize, edges: &[Difference]) -> Result<Potentials, Fail>
    requires { nodes ≤ 3 }
{
    if are_edges(nodes, edges) {
        Ok(settle(alloc, nodes, edges)?)
    } else {
        Err("no edges")?
    }
}

fn edge(from: usize, to: usize, fall: i128) -> Difference {
    Difference { from, to, fall }
}

#[test]
fn levels_fall_along_edges(rt: HostRuntime) -> Result<(), Fail> {
    let edges = [edge(0, 1, 3), edge(1, 2, 4), edge(2, 0, -7)];
    match settled(rt.alloc(), 3, &edges)? {
        Potentials::Levels(levels) => {
            assert!(rt; levels.as_slice() == [0, -3, -7].as_slice());
        }
        Potentials::Circle(_) => assert!(rt; false),
    }
    Ok(())
}

#[test]
fn a_circle_that_falls_is_found(rt: HostRuntime) -> Result<(), Fail> {
    let edges = [edge(0, 1, 3), edge(1, 2, 4), edge(2, 1, -3), edge(2, 0, -9)];
    match settled(rt.alloc(), 3, &edges)? {
        Potentials::Levels(_) => assert!(rt; false),
        Potentials::Circle(circle) => assert!(rt; circle.as_slice() == [2, 1].as_slice()),
    }
    Ok(())
}

#[test]
fn an_edge_from_a_node_to_itself_is_a_circle(rt: HostRuntime) -> Result<(), Fail> {
    match settled(rt.alloc(), 1, &[edge(0, 0, 1)])? {
        Potentials::Levels(_) => assert!(rt; false),
        Potentials::Circle(circle) => assert!(rt; circle.as_slice() == [0].as_slice()),
    }
    Ok(())
}
