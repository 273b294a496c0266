//! The tree as a JSON text, an object for each visit.

ghost use Rattle.std.specs.Prelude.{◌≡◌, ◌+◌, ◌-◌, ◌≤◌, ◌^◌, ◌++◌, ◌∷◌, [], ℕ, List, decimal, map, take, length, codes, slice_get, Some};
ghost use Rattle.std.specs.Fmt.{signed_decimal};
ghost use Rattle.ipg_core.specs.declared.grammar.Sym.{Sym};
ghost use Rattle.ipg_core.specs.Grammar.{Grammar};
ghost use Rattle.ipg_core.specs.Lines as lines;
ghost use Rattle.ipg_core.specs.Tree.{Tree};
ghost use Rattle.ipg_mach_nodes.specs.Stored.{Source, Stored};
ghost use Rattle.ipg_table.specs.Rows.{StandFor};
ghost use Rattle.ipg_tree_walk.specs.Left.{Shows, StandsNode};
ghost use Rattle.ipg_tree_walk.specs.Visits.{Seen};
ghost use Rattle.ipg_tree.specs.Json as spec;
ghost use Rattle.ipg_tree.specs.JsonWalk as walk;
ghost use Rattle.ipg_tree.specs.Line.{Says};
ghost use Rattle.ipg_tree.specs.Puts.{Puts};
ghost use Rattle.ipg_tree.specs.Shares.{Shares, IsTree};

use crate::line::{Places, places_of};
use crate::names::{rule_name, sym_name, text_of};
use crate::tail::Tail;
use crate::words::{first, put, put_digits};
use ipg_core::grammar::Primitive;
use ipg_mach_nodes::{Kid, Node};
use ipg_outside::{Sink, SinkFault};
use ipg_table::tables::Tables;
use ipg_tree_walk::{Parsed, Visit};
use std::alloc::Allocator;

/// What was written last, and how deep it lies.
#[derive(Clone, Copy)]
enum Last {
    Nothing,
    /// A whole object.
    Whole { depth: u64 },
    /// An object up to those in it.
    Opened { depth: u64 },
}

/// Writes the ends of so many objects.
fn put_ends<S: Sink>(out: &mut S, count: u64) -> Result<(), SinkFault>
    ensures { Puts result (walk.ends count) (S.output out.old) (S.faults out.old) (S.output out.new) (S.faults out.new) }
{
    let mut left = count;
    while left > 0 {
        put(out, b"]}")?;
        left -= 1;
    }
    Ok(())
}

/// Writes the ends of so many objects, and a comma.
fn put_comma<S: Sink>(out: &mut S, ends: u64) -> Result<(), SinkFault>
    ensures { Puts result (walk.ends ends ++ 44 ∷ []) (S.output out.old) (S.faults out.old) (S.output out.new) (S.faults out.new) }
{
    put_ends(out, ends)?;
    put(out, b",")
}

/// Writes what stands behind an object that was opened and one at this depth, where that lies not in it.
fn put_after<S: Sink>(out: &mut S, ends: u64) -> Result<(), SinkFault>
    ensures { Puts result (spec.end ++ (walk.ends ends ++ 44 ∷ [])) (S.output out.old) (S.faults out.old) (S.output out.new) (S.faults out.new) }
{
    put(out, b"]}")?;
    put_comma(out, ends)
}

/// Writes what stands between the visit before and one at this depth.
fn put_between<S: Sink>(out: &mut S, last: Last, depth: u64) -> Result<(), SinkFault>
    ensures { Puts result (walk.between last depth) (S.output out.old) (S.faults out.old) (S.output out.new) (S.faults out.new) }
{
    match last {
        Last::Nothing => put(out, b""),
        Last::Whole { depth: last } => put_comma(out, last.saturating_sub(depth)),
        Last::Opened { depth: last } => {
            if depth <= last {
                put_after(out, last - depth)
            } else {
                put(out, b"")
            }
        }
    }
}

/// Writes the ends of so many objects, and a line feed.
fn put_last_ends<S: Sink>(out: &mut S, count: u64) -> Result<(), SinkFault>
    ensures { Puts result (walk.ends count ++ 10 ∷ []) (S.output out.old) (S.faults out.old) (S.output out.new) (S.faults out.new) }
{
    put_ends(out, count)?;
    put(out, b"\n")
}

/// Writes one end more, those of so many objects, and a line feed.
fn put_end<S: Sink>(out: &mut S, around: u64) -> Result<(), SinkFault>
    ensures { Puts result ((spec.end ++ walk.ends around) ++ 10 ∷ []) (S.output out.old) (S.faults out.old) (S.output out.new) (S.faults out.new) }
{
    put(out, b"]}")?;
    put_last_ends(out, around)
}

/// Writes what stands behind the last visit, and a line feed.
fn put_closing<S: Sink>(out: &mut S, last: Last) -> Result<(), SinkFault>
    ensures { Puts result (walk.closing last ++ 10 ∷ []) (S.output out.old) (S.faults out.old) (S.output out.new) (S.faults out.new) }
{
    match last {
        Last::Nothing => put(out, b"\n"),
        Last::Whole { depth } => put_last_ends(out, depth),
        Last::Opened { depth } => put_end(out, depth),
    }
}

/// Writes a name up to its quote, and a value.
fn put_named<S: Sink>(out: &mut S, name: &[u8], value: i64) -> Result<(), SinkFault>
    ensures { Puts result (name.now ++ (codes "\":" ++ signed_decimal value)) (S.output out.old) (S.faults out.old) (S.output out.new) (S.faults out.new) }
{
    let mut piece = Tail::new();
    piece.prepend_signed(value);
    piece.prepend(b"\":");
    put(out, name)?;
    put(out, piece.as_slice())
}

/// Writes the member of an attribute.
fn put_member<S: Sink>(out: &mut S, tables: &Tables, attr: (u32, i64)) -> Result<(), SinkFault>
    ensures { (g : Grammar) → StandFor tables.now g
        → Puts result (spec.member g attr) (S.output out.old) (S.faults out.old) (S.output out.new) (S.faults out.new) }
{
    put(out, b"\"")?;
    put_named(out, tables.attr_name(attr.0), attr.1)
}

/// Writes a comma, and the member of an attribute.
fn put_next_member<S: Sink>(out: &mut S, tables: &Tables, attr: (u32, i64)) -> Result<(), SinkFault>
    ensures { (g : Grammar) → StandFor tables.now g
        → Puts result (44 ∷ spec.member g attr) (S.output out.old) (S.faults out.old) (S.output out.new) (S.faults out.new) }
{
    put(out, b",\"")?;
    put_named(out, tables.attr_name(attr.0), attr.1)
}

/// Writes the members of attributes, each behind a comma.
fn put_more_members<S: Sink>(
    out: &mut S,
    tables: &Tables,
    attrs: &[(u32, i64)],
) -> Result<(), SinkFault>
    ensures { (g : Grammar) → StandFor tables.now g
        → Puts result (walk.led (map (spec.member g) attrs.now)) (S.output out.old) (S.faults out.old) (S.output out.new) (S.faults out.new) }
{
    for attr in attrs {
        put_next_member(out, tables, *attr)?;
    }
    Ok(())
}

/// Writes the members of attributes, parted by commas.
fn put_members<S: Sink>(out: &mut S, tables: &Tables, attrs: &[(u32, i64)]) -> Result<(), SinkFault>
    ensures { (g : Grammar) → StandFor tables.now g
        → Puts result (spec.joined (map (spec.member g) attrs.now)) (S.output out.old) (S.faults out.old) (S.output out.new) (S.faults out.new) }
{
    match attrs.split_first() {
        Some((first, more)) => {
            put_member(out, tables, *first)?;
            put_more_members(out, tables, more)
        }
        None => put(out, b""),
    }
}

/// Writes the places of a node, which are made in `line`.
fn put_places<S: Sink>(out: &mut S, line: &mut Tail, places: Places) -> Result<(), SinkFault>
    ensures { Puts result (spec.places places.from places.to places.start places.end) (S.output out.old) (S.faults out.old)
        (S.output out.new) (S.faults out.new) }
{
    line.clear();
    line.prepend(b",\"attrs\":{");
    line.prepend_number(places.end);
    line.prepend(b",\"end\":");
    line.prepend_number(places.start);
    line.prepend(b",\"start\":");
    line.prepend_number(places.to);
    line.prepend(b",\"to\":");
    line.prepend_number(places.from);
    line.prepend(b"\",\"from\":");
    put(out, line.as_slice())
}

/// Writes a rule's name and places.
fn put_rule<S: Sink>(
    out: &mut S,
    line: &mut Tail,
    name: &[u8],
    places: Places,
) -> Result<(), SinkFault>
    ensures { Puts result (codes "{\"rule\":\"" ++ (name.now ++ spec.places places.from places.to places.start places.end))
        (S.output out.old) (S.faults out.old) (S.output out.new) (S.faults out.new) }
{
    put(out, b"{\"rule\":\"")?;
    put(out, name)?;
    put_places(out, line, places)
}

/// Writes the object of a node, whose part begins at `at`, up to those in it.
fn put_node<A: Allocator + Clone + Drop, S: Sink>(
    out: &mut S,
    line: &mut Tail,
    p: &Parsed<'_, A>,
    at: u64,
    node: Node,
) -> Result<(), SinkFault>
    ensures { (g : Grammar) (one : Tree) → StandFor p.now.parse.tables g → Says p.now.parse.store node one → at + 2 ^ 32 ≤ 2 ^ 64
        → Puts result (walk.tree_text g at one) (S.output out.old) (S.faults out.old) (S.output out.new) (S.faults out.new) }
{
    let places = places_of(at, node);
    let tables = p.tables();
    let attrs = p.attrs_at(node.attrs);
    let name = rule_name(tables, node.head.rule);
    put_rule(out, line, name, places)?;
    put_members(out, tables, attrs)?;
    put(out, b"},\"kids\":[")
}

/// Puts the first members of a leaf, of at most five letters, before what follows them.
#[inline(always)]
fn prepend_front(line: &mut Tail, visit: Visit, prim: &[u8])
    requires { length prim.now + length line.old ≤ 90 }
    ensures { line.new ≡ spec.leaf prim.now visit.from visit.to line.old }
{
    line.prepend_number(visit.to);
    line.prepend(b",\"to\":");
    line.prepend_number(visit.from);
    line.prepend(b"\",\"from\":");
    line.prepend(prim);
    line.prepend(b"{\"prim\":\"");
}

/// Writes the object of a number of at most 32 bits.
fn put_low<S: Sink>(
    out: &mut S,
    line: &mut Tail,
    visit: Visit,
    prim: &[u8],
    low: u32,
) -> Result<(), SinkFault>
    requires { length prim.now ≤ 5 }
    ensures { Puts result (spec.leaf prim.now visit.from visit.to (codes ",\"val\":" ++ (decimal low ++ codes "}")))
        (S.output out.old) (S.faults out.old) (S.output out.new) (S.faults out.new) }
{
    line.clear();
    line.prepend(b"}");
    line.prepend_number(u64::from(low));
    line.prepend(b",\"val\":");
    prepend_front(line, visit, prim);
    put(out, line.as_slice())
}

/// Writes the object of a number of 64 bits.
fn put_halves<S: Sink>(
    out: &mut S,
    line: &mut Tail,
    visit: Visit,
    prim: &[u8],
    high: u32,
    low: u32,
) -> Result<(), SinkFault>
    requires { length prim.now ≤ 5 }
    ensures { Puts result (spec.leaf prim.now visit.from visit.to (codes ",\"hi\":" ++ (decimal high ++ (codes ",\"lo\":" ++ (decimal low ++ codes "}")))))
        (S.output out.old) (S.faults out.old) (S.output out.new) (S.faults out.new) }
{
    line.clear();
    line.prepend(b"}");
    line.prepend_number(u64::from(low));
    line.prepend(b",\"lo\":");
    line.prepend_number(u64::from(high));
    line.prepend(b",\"hi\":");
    prepend_front(line, visit, prim);
    put(out, line.as_slice())
}

/// Writes the object of a number: both halves of one of 64 bits, else its value.
pub(crate) fn put_number<S: Sink>(
    out: &mut S,
    line: &mut Tail,
    visit: Visit,
    prim: Primitive,
    high: u32,
    low: u32,
) -> Result<(), SinkFault>
    ensures { Puts result (spec.leaf (lines.primitive_name prim) visit.from visit.to (spec.value prim high low))
        (S.output out.old) (S.faults out.old) (S.output out.new) (S.faults out.new) }
{
    match prim {
        Primitive::U64LE | Primitive::U64BE => {
            put_halves(out, line, visit, prim.word(), high, low)
        }
        _ => put_low(out, line, visit, prim.word(), low),
    }
}

/// Writes the first members of a leaf up to its bytes.
fn put_front<S: Sink>(
    out: &mut S,
    line: &mut Tail,
    visit: Visit,
    prim: &[u8],
) -> Result<(), SinkFault>
    requires { length prim.now ≤ 5 }
    ensures { Puts result (spec.leaf prim.now visit.from visit.to (codes ",\"hex\":\"")) (S.output out.old) (S.faults out.old)
        (S.output out.new) (S.faults out.new) }
{
    line.clear();
    line.prepend(b",\"hex\":\"");
    prepend_front(line, visit, prim);
    put(out, line.as_slice())
}

/// Writes the object of a terminal.
pub(crate) fn put_terminal<S: Sink>(
    out: &mut S,
    line: &mut Tail,
    visit: Visit,
    text: &[u8],
) -> Result<(), SinkFault>
    ensures { Puts result (spec.leaf (codes "tok") visit.from visit.to (spec.terminal text.now)) (S.output out.old) (S.faults out.old)
        (S.output out.new) (S.faults out.new) }
{
    put_front(out, line, visit, b"tok")?;
    put_digits(out, text)?;
    put(out, b"\"}")
}

/// Writes how many bytes more there are than were shown, and the end of an object.
fn put_more<S: Sink>(out: &mut S, line: &mut Tail, more: u64) -> Result<(), SinkFault>
    ensures { Puts result (codes "\",\"more\":" ++ (decimal more ++ codes "}")) (S.output out.old) (S.faults out.old)
        (S.output out.new) (S.faults out.new) }
{
    line.clear();
    line.prepend(b"}");
    line.prepend_number(more);
    line.prepend(b"\",\"more\":");
    put(out, line.as_slice())
}

/// Writes the object of raw bytes.
pub(crate) fn put_raw<S: Sink>(
    out: &mut S,
    line: &mut Tail,
    visit: Visit,
    bytes: &[u8],
) -> Result<(), SinkFault>
    ensures { Puts result (spec.leaf (codes "Bytes") visit.from visit.to (spec.raw bytes.now)) (S.output out.old) (S.faults out.old)
        (S.output out.new) (S.faults out.new) }
{
    put_front(out, line, visit, b"Bytes")?;
    put_digits(out, first(bytes, 32))?;
    put_more(out, line, (bytes.len() as u64).saturating_sub(32))
}

/// Writes the object of an array or a repetition up to its items; the text up to the symbol's name is given.
fn put_items<S: Sink>(
    out: &mut S,
    tables: &Tables,
    opening: &[u8],
    sym: u32,
) -> Result<(), SinkFault>
    ensures { (g : Grammar) (one : Sym) → StandFor tables.now g → slice_get tables.now.syms sym ≡ Some one
        → Puts result (spec.items_head g opening.now one) (S.output out.old) (S.faults out.old) (S.output out.new) (S.faults out.new) }
{
    put(out, opening)?;
    put(out, sym_name(tables, sym))?;
    put(out, b"\",\"items\":[")
}

/// Writes the object of the node of a visit up to those in it; nothing where it comes to none.
fn put_tree<A: Allocator + Clone + Drop, S: Sink>(
    out: &mut S,
    line: &mut Tail,
    p: &Parsed<'_, A>,
    visit: Visit,
) -> Result<(), SinkFault>
    ensures { (src : Source) (g : Grammar) (begin : ℕ) (one : Tree) → StandFor p.now.parse.tables g
        → StandsNode src p.now.parse.store begin visit.node one → visit.from + 2 ^ 32 ≤ 2 ^ 64
        → Puts result (walk.tree_text g visit.from one) (S.output out.old) (S.faults out.old) (S.output out.new) (S.faults out.new) }
{
    match visit.node {
        Some(node) => put_node(out, line, p, visit.from, node),
        None => Ok(()),
    }
}

/// Writes the object of a visit, up to those in it.
fn put_visit<A: Allocator + Clone + Drop, S: Sink>(
    out: &mut S,
    line: &mut Tail,
    p: &Parsed<'_, A>,
    visit: Visit,
) -> Result<(), SinkFault>
    ensures { (src : Source) (g : Grammar) (one : Seen) → Shares p.now.parse src g → Shows src p.now.parse.store visit one
        → Puts result (walk.kid_text g one.at one.child) (S.output out.old) (S.faults out.old) (S.output out.new) (S.faults out.new) }
{
    match visit.kid {
        Kid::Node { .. } => put_tree(out, line, p, visit),
        Kid::Text { sym, .. } => put_terminal(out, line, visit, text_of(p.tables(), sym)),
        Kid::Number {
            prim,
            high,
            low,
            ..
        } => put_number(out, line, visit, prim, high, low),
        Kid::Raw { .. } => put_raw(out, line, visit, p.part(visit.from, visit.to)),
        Kid::Array { sym, .. } => put_items(out, p.tables(), b"{\"for\":\"", sym),
        Kid::Many { sym, .. } => put_items(out, p.tables(), b"{\"many\":\"", sym),
    }
}

/// What is written last once a visit is.
fn behind(visit: Visit) -> Last
    ensures { (src : Source) (g : Grammar) (one : Seen) (p : Stored) → Shows src p visit one → result ≡ walk.kid_behind one.depth one.child }
{
    let depth = visit.depth;
    match visit.kid {
        Kid::Node { .. } => Last::Opened { depth },
        Kid::Array { .. } => Last::Opened { depth },
        Kid::Many { .. } => Last::Opened { depth },
        Kid::Text { .. } => Last::Whole { depth },
        Kid::Number { .. } => Last::Whole { depth },
        Kid::Raw { .. } => Last::Whole { depth },
    }
}

/// Writes what stands between the visit before and this one, and its object up to those in it.
fn put_next<A: Allocator + Clone + Drop, S: Sink>(
    out: &mut S,
    line: &mut Tail,
    p: &Parsed<'_, A>,
    last: Last,
    visit: Visit,
) -> Result<(), SinkFault>
    ensures { (src : Source) (g : Grammar) (one : Seen) → Shares p.now.parse src g → Shows src p.now.parse.store visit one
        → Puts result (walk.between last one.depth ++ walk.kid_text g one.at one.child)
        (S.output out.old) (S.faults out.old) (S.output out.new) (S.faults out.new) }
{
    put_between(out, last, visit.depth)?;
    put_visit(out, line, p, visit)
}

/// Writes the tree as a JSON text and a line feed, each object as the walk comes to it, without taking memory.
pub fn print_json<A: Allocator + Clone + Drop, S: Sink>(
    p: &mut Parsed<'_, A>,
    out: &mut S,
) -> Result<(), SinkFault>
    ensures parse { p.new.parse ≡ p.old.parse }
    ensures json { (src : Source) (g : Grammar) (one : Tree) → IsTree p.old.parse src g one
        → Puts result (spec.json g one) (S.output out.old) (S.faults out.old) (S.output out.new) (S.faults out.new) }
{
    p.rewind();
    let mut line = Tail::new();
    let mut last = Last::Nothing;
    while let Some(visit) = p.next() {
        put_next(out, &mut line, p, last, visit)?;
        last = behind(visit);
    }
    put_closing(out, last)
}
