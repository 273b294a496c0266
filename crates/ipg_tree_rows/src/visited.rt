//! The rows of a visit.
ghost use Rattle.std.specs.Prelude.{◌≡◌, ◌+◌, ◌++◌, ◌≤◌, ◌^◌, ◌∷◌, [], ℕ, ℤ, List, map, OnOk};
ghost use Rattle.ipg_core.specs.Tree.{Tree};
ghost use Rattle.ipg_mach_nodes.specs.Stored.{Source};
ghost use Rattle.ipg_tree_walk.specs.Left.{Shows, StandsNode};
ghost use Rattle.ipg_tree_walk.specs.Visits.{Seen};
ghost use Rattle.ipg_tree_rows.specs.Rows as spec;
ghost use Rattle.ipg_tree_rows.specs.Sees.{IsSource, IsLeafRow, Says};

use crate::naming::{Named, sym_name};
use crate::row::TreeRow;
use ipg_core::grammar::Primitive;
use ipg_mach_nodes::{Kid, Node};
use ipg_tree_walk::{Parsed, Visit};
use std::alloc::{AllocError, Allocator};

/// A row with an interval of the input and nothing else.
fn plain(kind: u32, named: Named, depth: u64, from: u64, to: u64) -> TreeRow
    ensures { result ≡ spec.plain kind (named.of, named.number) depth from to }
{
    TreeRow {
        kind,
        of: named.of,
        name: named.number,
        high: 0,
        low: 0,
        depth,
        from,
        to,
        start: 0,
        end: 0,
        value: 0,
    }
}

/// The row of an attribute.
fn attr_row(depth: u64, attr: (u32, i64)) -> TreeRow
    ensures { result ≡ spec.attr_row depth attr }
{
    let named = Named {
        of: 3,
        number: attr.0,
    };
    TreeRow {
        value: attr.1,
        ..plain(1, named, depth, 0, 0)
    }
}

/// The row of a number.
fn number_row(visit: Visit, prim: Primitive, high: u32, low: u32) -> TreeRow
    ensures { result ≡ spec.number_row visit.depth visit.from visit.to prim high low }
{
    let named = Named {
        of: 1,
        number: u32::from(prim.number()),
    };
    TreeRow {
        high,
        low,
        ..plain(3, named, visit.depth, visit.from, visit.to)
    }
}

/// Adds the rows of attributes.
fn add_attrs(rows: &mut Vec<TreeRow>, depth: u64, attrs: &[(u32, i64)]) -> Result<(), AllocError>
    ensures { OnOk result (rows.new.items ≡ rows.old.items ++ map (spec.attr_row depth) attrs.now) }
{
    for attr in attrs {
        rows.push(attr_row(depth, *attr))?;
    }
    Ok(())
}

/// A place of a part that begins at `at`.
fn place(at: u64, offset: u32) -> u64
    ensures { at + 2 ^ 32 ≤ 2 ^ 64 → result ≡ at + offset }
{
    at.saturating_add(u64::from(offset))
}

/// The row of a node whose part begins at `at`.
fn node_row(depth: u64, at: u64, node: Node) -> TreeRow
    ensures { at + 2 ^ 32 ≤ 2 ^ 64 → result ≡ spec.node_row depth at node.head.rule node.head.size node.head.start node.head.end }
{
    let head = node.head;
    let named = Named {
        of: 0,
        number: head.rule,
    };
    TreeRow {
        start: place(at, head.start),
        end: place(at, head.end),
        ..plain(0, named, depth, at, place(at, head.size))
    }
}

/// Adds the rows of a node whose part begins at `at`.
fn add_node<A: Allocator + Clone + Drop>(
    rows: &mut Vec<TreeRow>,
    p: &Parsed<'_, A>,
    depth: u64,
    at: u64,
    node: Node,
) -> Result<(), AllocError>
    ensures { (one : Tree) → Says p.now.parse.store node one → at + 2 ^ 32 ≤ 2 ^ 64
        → OnOk result (rows.new.items ≡ rows.old.items ++ spec.head_rows depth at one) }
{
    rows.push(node_row(depth, at, node))?;
    add_attrs(rows, depth, p.attrs_at(node.attrs))
}

/// Adds the rows of the node of a visit; none where it comes to none.
fn add_tree<A: Allocator + Clone + Drop>(
    rows: &mut Vec<TreeRow>,
    p: &Parsed<'_, A>,
    visit: Visit,
) -> Result<(), AllocError>
    ensures { (src : Source) (begin : ℕ) (one : Tree) → StandsNode src p.now.parse.store begin visit.node one → visit.from + 2 ^ 32 ≤ 2 ^ 64
        → OnOk result (rows.new.items ≡ rows.old.items ++ spec.head_rows visit.depth visit.from one) }
{
    match visit.node {
        Some(node) => add_node(rows, p, visit.depth, visit.from, node),
        None => Ok(()),
    }
}

/// The row of a child that isn't a node.
fn child_row<A: Allocator + Clone + Drop>(p: &Parsed<'_, A>, visit: Visit) -> TreeRow
    ensures { (src : Source) (one : Seen) → IsSource p.now.parse src → Shows src p.now.parse.store visit one → IsLeafRow visit.kid
        → spec.rows_seen one ≡ result ∷ [] }
{
    let Visit {
        depth,
        from,
        to,
        ..
    } = visit;
    match visit.kid {
        Kid::Node { .. } => plain(0, Named { of: 0, number: 0 }, depth, from, to),
        Kid::Text { .. } => plain(2, Named { of: 2, number: 0 }, depth, from, to),
        Kid::Number {
            prim,
            high,
            low,
            ..
        } => number_row(visit, prim, high, low),
        Kid::Raw { .. } => plain(4, Named { of: 1, number: 7 }, depth, from, to),
        Kid::Array { sym, .. } => plain(5, sym_name(p.tables(), sym), depth, from, to),
        Kid::Many { sym, .. } => plain(6, sym_name(p.tables(), sym), depth, from, to),
    }
}

/// Adds the rows of a visit.
pub(crate) fn add_visit<A: Allocator + Clone + Drop>(
    rows: &mut Vec<TreeRow>,
    p: &Parsed<'_, A>,
    visit: Visit,
) -> Result<(), AllocError>
    ensures { (src : Source) (one : Seen) → IsSource p.now.parse src → Shows src p.now.parse.store visit one
        → OnOk result (rows.new.items ≡ rows.old.items ++ spec.rows_seen one) }
{
    match visit.kid {
        Kid::Node { .. } => add_tree(rows, p, visit),
        _ => {
            rows.push(child_row(p, visit))?;
            Ok(())
        }
    }
}
