//! The lines of a printed tree.

ghost use Rattle.std.specs.Prelude.{◌≡◌, ◌+◌, ◌≤◌, ◌^◌, ◌++◌, ◌∷◌, [], ℕ, decimal, map, codes, length};
ghost use Rattle.ipg_core.specs.Grammar.{Grammar};
ghost use Rattle.ipg_core.specs.Lines as spec;
ghost use Rattle.ipg_core.specs.Tree.{Tree, rule_of};
ghost use Rattle.ipg_mach_nodes.specs.Stored.{Source};
ghost use Rattle.ipg_table.specs.Rows.{StandFor};
ghost use Rattle.ipg_tree_walk.specs.Left.{StandsNode};
ghost use Rattle.ipg_tree.specs.Line.{Says, head_line};
ghost use Rattle.ipg_tree.specs.Puts.{Puts};
ghost use Rattle.ipg_tree.specs.Words.{spaced, parted};

use crate::names::rule_name;
use crate::tail::Tail;
use crate::words::{put, put_attr};
use ipg_mach_nodes::Node;
use ipg_outside::{Sink, SinkFault};
use ipg_table::tables::Tables;
use ipg_tree_walk::{Parsed, Visit};
use std::alloc::Allocator;

/// A name of so many bytes finds room in one piece with a depth and places.
const SHORT: usize = 45;

/// The places that a node's line shows: the ends of its part, and where it begins and ends to touch bytes.
#[derive(Clone, Copy)]
pub(crate) struct Places {
    pub(crate) from: u64,
    pub(crate) to: u64,
    pub(crate) start: u64,
    pub(crate) end: u64,
}

/// Writes a depth, before a space.
fn put_depth<S: Sink>(out: &mut S, depth: u64) -> Result<(), SinkFault>
    ensures { Puts result (parted (decimal depth ∷ []) []) (S.output out.old) (S.faults out.old) (S.output out.new) (S.faults out.new) }
{
    let mut piece = Tail::new();
    piece.prepend(b" ");
    piece.prepend_number(depth);
    put(out, piece.as_slice())
}

/// Puts places, each behind a space, into a piece.
#[inline(always)]
fn prepend_places(piece: &mut Tail, places: Places)
    requires { piece.old ≡ [] }
    ensures text { piece.new ≡ spaced (decimal places.from ∷ decimal places.to ∷ spec.set_word (codes "start") (decimal places.start)
        ∷ spec.set_word (codes "end") (decimal places.end) ∷ []) }
    ensures long { length piece.new ≤ 94 }
{
    piece.prepend_number(places.end);
    piece.prepend(b" end=");
    piece.prepend_number(places.start);
    piece.prepend(b" start=");
    piece.prepend_number(places.to);
    piece.prepend(b" ");
    piece.prepend_number(places.from);
    piece.prepend(b" ");
}

/// Writes places, each behind a space.
fn put_places<S: Sink>(out: &mut S, places: Places) -> Result<(), SinkFault>
    ensures { Puts result (spaced (decimal places.from ∷ decimal places.to ∷ spec.set_word (codes "start") (decimal places.start)
        ∷ spec.set_word (codes "end") (decimal places.end) ∷ []))
        (S.output out.old) (S.faults out.old) (S.output out.new) (S.faults out.new) }
{
    let mut piece = Tail::new();
    prepend_places(&mut piece, places);
    put(out, piece.as_slice())
}

/// Writes a depth, a name and places in one piece.
fn put_at_once<S: Sink>(
    out: &mut S,
    line: &mut Tail,
    depth: u64,
    name: &[u8],
    places: Places,
) -> Result<(), SinkFault>
    requires { length name.now ≤ 45 }
    ensures { Puts result (parted (decimal depth ∷ []) (name.now ++ spaced (decimal places.from ∷ decimal places.to
        ∷ spec.set_word (codes "start") (decimal places.start) ∷ spec.set_word (codes "end") (decimal places.end) ∷ [])))
        (S.output out.old) (S.faults out.old) (S.output out.new) (S.faults out.new) }
{
    line.clear();
    prepend_places(line, places);
    line.prepend(name);
    line.prepend(b" ");
    line.prepend_number(depth);
    put(out, line.as_slice())
}

/// Writes a depth, a name of any length, and places.
#[cold]
#[inline(never)]
fn put_by_parts<S: Sink>(
    out: &mut S,
    depth: u64,
    name: &[u8],
    places: Places,
) -> Result<(), SinkFault>
    ensures { Puts result (parted (decimal depth ∷ []) (name.now ++ spaced (decimal places.from ∷ decimal places.to
        ∷ spec.set_word (codes "start") (decimal places.start) ∷ spec.set_word (codes "end") (decimal places.end) ∷ [])))
        (S.output out.old) (S.faults out.old) (S.output out.new) (S.faults out.new) }
{
    put_depth(out, depth)?;
    put(out, name)?;
    put_places(out, places)
}

/// Writes a depth, a name and places.
fn put_head<S: Sink>(
    out: &mut S,
    line: &mut Tail,
    depth: u64,
    name: &[u8],
    places: Places,
) -> Result<(), SinkFault>
    ensures { Puts result (parted (decimal depth ∷ []) (name.now ++ spaced (decimal places.from ∷ decimal places.to
        ∷ spec.set_word (codes "start") (decimal places.start) ∷ spec.set_word (codes "end") (decimal places.end) ∷ [])))
        (S.output out.old) (S.faults out.old) (S.output out.new) (S.faults out.new) }
{
    if name.len() <= SHORT {
        put_at_once(out, line, depth, name, places)
    } else {
        put_by_parts(out, depth, name, places)
    }
}

/// Writes a space and an attribute with its value.
fn put_next_attr<S: Sink>(out: &mut S, tables: &Tables, attr: (u32, i64)) -> Result<(), SinkFault>
    ensures { (g : Grammar) → StandFor tables.now g
        → Puts result (32 ∷ spec.attr_word g attr) (S.output out.old) (S.faults out.old) (S.output out.new) (S.faults out.new) }
{
    put(out, b" ")?;
    put_attr(out, tables.attr_name(attr.0), attr.1)
}

/// Writes attributes, each behind a space.
fn put_attrs<S: Sink>(out: &mut S, tables: &Tables, attrs: &[(u32, i64)]) -> Result<(), SinkFault>
    ensures { (g : Grammar) → StandFor tables.now g
        → Puts result (spaced (map (spec.attr_word g) attrs.now)) (S.output out.old) (S.faults out.old) (S.output out.new) (S.faults out.new) }
{
    for attr in attrs {
        put_next_attr(out, tables, *attr)?;
    }
    Ok(())
}

/// A place of a part that begins at `at`.
fn place(at: u64, offset: u32) -> u64
    ensures { at + 2 ^ 32 ≤ 2 ^ 64 → result ≡ at + offset }
{
    at.saturating_add(u64::from(offset))
}

/// The places of a node whose part begins at `at`.
pub(crate) fn places_of(at: u64, node: Node) -> Places
    ensures from { result.from ≡ at }
    ensures others { at + 2 ^ 32 ≤ 2 ^ 64
        → (result.to ≡ at + node.head.size) × (result.start ≡ at + node.head.start) × (result.end ≡ at + node.head.end) }
{
    let head = node.head;
    Places {
        from: at,
        to: place(at, head.size),
        start: place(at, head.start),
        end: place(at, head.end),
    }
}

/// Writes the line of a node whose part begins at `at`.
fn put_row<A: Allocator + Clone + Drop, S: Sink>(
    out: &mut S,
    line: &mut Tail,
    p: &Parsed<'_, A>,
    depth: u64,
    at: u64,
    node: Node,
) -> Result<(), SinkFault>
    ensures { (g : Grammar) (one : Tree) → StandFor p.now.parse.tables g → Says p.now.parse.store node one → at + 2 ^ 32 ≤ 2 ^ 64
        → Puts result (head_line g depth at one) (S.output out.old) (S.faults out.old) (S.output out.new) (S.faults out.new) }
{
    let places = places_of(at, node);
    let tables = p.tables();
    let attrs = p.attrs_at(node.attrs);
    let name = rule_name(tables, node.head.rule);
    put_head(out, line, depth, name, places)?;
    put_attrs(out, tables, attrs)?;
    put(out, b"\n")
}

/// Writes the line of the node of a visit, which is made in `line`; nothing where it comes to none.
pub(crate) fn put_node<A: Allocator + Clone + Drop, S: Sink>(
    out: &mut S,
    line: &mut Tail,
    p: &Parsed<'_, A>,
    visit: Visit,
) -> Result<(), SinkFault>
    ensures { (src : Source) (g : Grammar) (begin : ℕ) (one : Tree) → StandFor p.now.parse.tables g
        → StandsNode src p.now.parse.store begin visit.node one → visit.from + 2 ^ 32 ≤ 2 ^ 64
        → Puts result (head_line g visit.depth visit.from one) (S.output out.old) (S.faults out.old) (S.output out.new) (S.faults out.new) }
{
    match visit.node {
        Some(node) => put_row(out, line, p, visit.depth, visit.from, node),
        None => Ok(()),
    }
}
