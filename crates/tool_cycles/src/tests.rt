//! Two parts and an edge between them, and a chain that would take a walk for each of its rules in another order.

use ipg_graph::{Edge, are_inside};
use ipg_graph_parts::edges_on_cycles;
use std::alloc::Global;
use std::test::Fail;

fn edge(caller: u32, callee: u32) -> Edge {
    Edge {
        caller,
        alt: 0,
        term: 0,
        branch: 0,
        callee,
    }
}

fn flags_of(alloc: Global, rules: u32, edges: &[Edge]) -> Result<Vec<bool>, Fail> {
    if edges.len() < 1 << 20 && are_inside(rules, edges) {
        Ok(edges_on_cycles(alloc, rules, edges)?)
    } else {
        Err("no graph of these rules")?
    }
}

#[test]
fn edges_between_parts_lie_on_no_cycle(rt: HostRuntime) -> Result<(), Fail> {
    let edges = [
        edge(0, 1),
        edge(1, 0),
        edge(1, 2),
        edge(2, 3),
        edge(3, 2),
        edge(3, 3),
        edge(0, 4),
    ];
    let flags = flags_of(rt.alloc(), 5, &edges)?;
    assert_eq!(rt;
        flags.as_slice(),
        [true, true, false, true, true, true, false].as_slice()
    );
    Ok(())
}

#[test]
fn a_long_chain_takes_one_walk(rt: HostRuntime) -> Result<(), Fail> {
    let rules = 200_000;
    let mut edges = Vec::new(rt.alloc());
    for rule in 1..rules {
        edges.push(edge(rule, rule - 1))?;
    }
    let flags = flags_of(rt.alloc(), rules, edges.as_slice())?;
    assert!(rt; flags.iter().all(|flag| !flag));
    Ok(())
}
