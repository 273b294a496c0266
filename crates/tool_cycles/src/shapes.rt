use ipg_graph::Edge;
use std::alloc::{AllocError, Global};

/// Graphs whose cycles are known.
#[derive(Clone, Copy, Debug, PartialEq, Eq)]
pub enum Shape {
    /// So many diamonds in a row: two ways through each, and no way back.
    Ladder(u32),
    /// The same, and one edge back over the diamond in the middle.
    LoopedLadder(u32),
    /// An edge from each rule to each other one.
    Complete(u32),
    /// From each rule to the next, and from the last to the first.
    Ring(u32),
    /// 64 edges a rule on average, to the rules behind it.
    Forward(u32),
}

fn edge(caller: u32, callee: u32) -> Edge {
    Edge {
        caller,
        alt: 0,
        term: 0,
        branch: 0,
        callee,
    }
}

impl Shape {
    pub fn rules(self) -> u32 {
        match self {
            Shape::Ladder(n) | Shape::LoopedLadder(n) => n.saturating_mul(3).saturating_add(1),
            Shape::Complete(n) | Shape::Ring(n) | Shape::Forward(n) => n,
        }
    }

    pub fn edges(self, alloc: Global) -> Result<Vec<Edge>, AllocError> {
        match self {
            Shape::Ladder(n) => ladder(alloc, n, n),
            Shape::LoopedLadder(n) => ladder(alloc, n, n / 2),
            Shape::Complete(n) => complete(alloc, n),
            Shape::Ring(n) => ring(alloc, n),
            Shape::Forward(n) => forward(alloc, n),
        }
    }
}

/// Diamonds in a row; the one at `looped`, if there is one, has an edge back over it.
fn ladder(alloc: Global, diamonds: u32, looped: u32) -> Result<Vec<Edge>, AllocError> {
    let mut edges = Vec::new(alloc);
    for i in 0..diamonds {
        let top = i.saturating_mul(3);
        let end = top.saturating_add(3);
        edges.push(edge(top, top.saturating_add(1)))?;
        edges.push(edge(top, top.saturating_add(2)))?;
        edges.push(edge(top.saturating_add(1), end))?;
        edges.push(edge(top.saturating_add(2), end))?;
        if i == looped {
            edges.push(edge(end, top))?;
        }
    }
    Ok(edges)
}

fn complete(alloc: Global, rules: u32) -> Result<Vec<Edge>, AllocError> {
    let mut edges = Vec::new(alloc);
    for caller in 0..rules {
        for callee in 0..rules {
            if caller != callee {
                edges.push(edge(caller, callee))?;
            }
        }
    }
    Ok(edges)
}

fn ring(alloc: Global, rules: u32) -> Result<Vec<Edge>, AllocError> {
    let mut edges = Vec::new(alloc);
    for caller in 0..rules {
        let next = caller.saturating_add(1);
        edges.push(edge(caller, if next < rules { next } else { 0 }))?;
    }
    Ok(edges)
}

fn forward(alloc: Global, rules: u32) -> Result<Vec<Edge>, AllocError> {
    let mut edges = Vec::new(alloc);
    for caller in 0..rules {
        for callee in caller.saturating_add(1)..rules.min(caller.saturating_add(68)) {
            if edges.len() / 64 < rules as usize {
                edges.push(edge(caller, callee))?;
            }
        }
    }
    Ok(edges)
}
