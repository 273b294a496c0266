//! The tree beside the bytes.

ghost use Rattle.std.specs.Prelude.{◌≡◌, ◌+◌, ◌-◌, ◌*◌, ◌<◌, ◌≤◌, ◌^◌, ◌++◌, ◌∷◌, [], ℕ, ℤ, List, map};
ghost use Rattle.std.specs.Prelude.{take, drop, length, codes, slice_get, Some, None, Option, Bool, flat_map, decimal};
ghost use Rattle.ipg_core.specs.declared.grammar.Sym.{Sym};
ghost use Rattle.ipg_core.specs.Grammar.{Grammar};
ghost use Rattle.ipg_core.specs.Lines as lines;
ghost use Rattle.ipg_core.specs.Part.{part};
ghost use Rattle.ipg_core.specs.Touch.{width};
ghost use Rattle.ipg_core.specs.Tree.{Tree, Kids};
ghost use Rattle.ipg_mach_nodes.specs.declared.kid.Kid.{Kid as Row};
ghost use Rattle.ipg_mach_nodes.specs.Stored.{Source, StandKids};
ghost use Rattle.ipg_table.specs.Rows.{StandFor};
ghost use Rattle.ipg_tree_walk.specs.Left.{Shows, StandsNode};
ghost use Rattle.ipg_tree_walk.specs.Visits.{Seen};
ghost use Rattle.ipg_tree_view.specs.Bare as bare;
ghost use Rattle.ipg_tree_view.specs.Bare.{runs, ended, ended_at, begun_at};
ghost use Rattle.ipg_tree_view.specs.Cutting.{begun, Lacks};
ghost use Rattle.ipg_tree.specs.Line.{Says};
ghost use Rattle.ipg_tree.specs.Puts.{Puts};
ghost use Rattle.ipg_tree.specs.Shares.{Shares, IsTree};
ghost use Rattle.ipg_tree_view.specs.View as spec;
ghost use Rattle.ipg_tree.specs.Words.{spaced};

use crate::bare::{end_of, text_size};
use crate::columns::{put_bare_line, put_line, put_more_line};
use crate::cut::Cut;
use crate::words::{behind, first, put};
use ipg_core::grammar::Primitive;
use ipg_mach_nodes::{Kid, Node, RunId};
use ipg_outside::{Sink, SinkFault};
use ipg_table::tables::Tables;
use ipg_tree::Tail;
use ipg_tree::names::{rule_name, sym_name};
use ipg_tree_walk::{Parsed, Visit};
use std::alloc::Allocator;

/// A part of the input: the place where it begins, and its bytes.
#[derive(Clone, Copy)]
struct Piece<'a> {
    at: u64,
    bytes: &'a [u8],
}

/// The symbol of an array or a repetition, and its items.
#[derive(Clone, Copy)]
struct Items {
    sym: u32,
    list: RunId,
}

/// An empty text with two blanks for each level.
pub(crate) fn indent(depth: u64) -> Cut
    ensures { (text : List ℕ) → Lacks result (spec.indented depth text) text }
{
    let mut text = Cut::new();
    let mut left = depth.min(12);
    while left > 0 {
        text.push(b"  ");
        left -= 1;
    }
    text
}

/// Puts `FROM..TO` behind what there is.
fn push_interval(text: &mut Cut, from: u64, to: u64)
    ensures { (all end : List ℕ) → Lacks text.old all (spec.interval from to end) → Lacks text.new all end }
{
    text.push_number(from);
    text.push(b"..");
    text.push_number(to);
}

/// Puts an attribute with its value behind a blank.
fn push_attr(text: &mut Cut, tables: &Tables, attr: (u32, i64))
    ensures { (g : Grammar) (all end : List ℕ) → StandFor tables.now g
        → Lacks text.old all ((32 ∷ lines.attr_word g attr) ++ end) → Lacks text.new all end }
{
    text.push(b" ");
    text.push(tables.attr_name(attr.0));
    text.push(b"=");
    text.push_signed(attr.1);
}

/// Puts attributes, each behind a blank.
fn push_attrs(text: &mut Cut, tables: &Tables, attrs: &[(u32, i64)])
    ensures { (g : Grammar) (all : List ℕ) → StandFor tables.now g
        → Lacks text.old all (spaced (map (lines.attr_word g) attrs.now)) → Lacks text.new all [] }
{
    for attr in attrs {
        push_attr(text, tables, *attr);
    }
}

/// A part of the input: the place where it begins, and how many bytes it has.
#[derive(Clone, Copy)]
pub(crate) struct Extent {
    pub(crate) at: u64,
    pub(crate) size: u32,
}

/// What is said of a node on a part of the input.
pub(crate) fn node_text(
    tables: &Tables,
    depth: u64,
    extent: Extent,
    rule: u32,
    attrs: &[(u32, i64)],
) -> Cut
    ensures { (g : Grammar) → StandFor tables.now g → extent.at + 2 ^ 32 ≤ 2 ^ 64
        → result ≡ begun (spec.node_text g depth extent.at rule extent.size attrs.now) }
{
    let mut text = indent(depth);
    text.push(rule_name(tables, rule));
    text.push(b" ");
    push_interval(
        &mut text,
        extent.at,
        extent.at.saturating_add(u64::from(extent.size)),
    );
    push_attrs(&mut text, tables, attrs);
    text
}

/// Writes the line of a node whose part begins at `at`.
fn put_node<A: Allocator + Clone + Drop, S: Sink>(
    out: &mut S,
    line: &mut Tail,
    p: &Parsed<'_, A>,
    depth: u64,
    at: u64,
    node: Node,
) -> Result<(), SinkFault>
    ensures { (g : Grammar) (one : Tree) → StandFor p.now.parse.tables g → Says p.now.parse.store node one → at + 2 ^ 32 ≤ 2 ^ 64
        → Puts result (spec.tree_head g depth at one) (S.output out.old) (S.faults out.old) (S.output out.new) (S.faults out.new) }
{
    let extent = Extent {
        at,
        size: node.head.size,
    };
    let text = node_text(
        p.tables(),
        depth,
        extent,
        node.head.rule,
        p.attrs_at(node.attrs),
    );
    put_line(out, line, at, &[], &text)
}

/// Writes the line of the node of a visit; nothing where it comes to none.
fn put_tree<A: Allocator + Clone + Drop, S: Sink>(
    out: &mut S,
    line: &mut Tail,
    p: &Parsed<'_, A>,
    visit: Visit,
) -> Result<(), SinkFault>
    ensures { (src : Source) (g : Grammar) (begin : ℕ) (one : Tree) → StandFor p.now.parse.tables g
        → StandsNode src p.now.parse.store begin visit.node one → visit.from + 2 ^ 32 ≤ 2 ^ 64
        → Puts result (spec.tree_head g visit.depth visit.from one) (S.output out.old) (S.faults out.old) (S.output out.new) (S.faults out.new) }
{
    match visit.node {
        Some(node) => put_node(out, line, p, visit.depth, visit.from, node),
        None => Ok(()),
    }
}

/// Writes how many bytes follow the first 48, if any do.
fn put_count<S: Sink>(
    out: &mut S,
    line: &mut Tail,
    depth: u64,
    at: u64,
    count: u64,
) -> Result<(), SinkFault>
    ensures { at + 2 ^ 32 ≤ 2 ^ 64
        → Puts result (spec.count_line depth at count) (S.output out.old) (S.faults out.old) (S.output out.new) (S.faults out.new) }
{
    if count <= 48 {
        return put(out, b"");
    }
    let mut text = indent(depth.saturating_add(1));
    text.push_number(count - 48);
    text.push(b" more");
    put_line(out, line, at.saturating_add(48), &[], &text)
}

/// Writes the lines of a part behind its first 16 bytes.
fn put_rest<S: Sink>(
    out: &mut S,
    line: &mut Tail,
    depth: u64,
    piece: Piece<'_>,
) -> Result<(), SinkFault>
    ensures { piece.entry.at + 2 ^ 32 ≤ 2 ^ 64
        → Puts result (spec.more_line (piece.entry.at + 16) (take 16 (drop 16 piece.entry.bytes.now))
        ++ (spec.more_line (piece.entry.at + 32) (take 16 (drop 32 piece.entry.bytes.now))
        ++ spec.count_line depth piece.entry.at (length piece.entry.bytes.now)))
        (S.output out.old) (S.faults out.old) (S.output out.new) (S.faults out.new) }
{
    let Piece { at, bytes } = piece;
    put_more_line(
        out,
        line,
        at.saturating_add(16),
        first(behind(bytes, 16), 16),
    )?;
    put_more_line(
        out,
        line,
        at.saturating_add(32),
        first(behind(bytes, 32), 16),
    )?;
    put_count(out, line, depth, at, bytes.len() as u64)
}

/// Writes the lines of a part of the input, and what it is.
fn put_piece<S: Sink>(
    out: &mut S,
    line: &mut Tail,
    depth: u64,
    piece: Piece<'_>,
    text: &Cut,
) -> Result<(), SinkFault>
    ensures { (end : List ℕ) → text.now ≡ begun (spec.indented depth end) → piece.entry.at + 2 ^ 32 ≤ 2 ^ 64
        → Puts result (spec.piece depth piece.entry.at piece.entry.bytes.now end) (S.output out.old) (S.faults out.old) (S.output out.new) (S.faults out.new) }
{
    put_line(out, line, piece.at, first(piece.bytes, 16), text)?;
    put_rest(out, line, depth, piece)
}

/// The part of the input from a place up to another.
fn piece_of<'a, A: Allocator + Clone + Drop>(p: &Parsed<'a, A>, from: u64, to: u64) -> Piece<'a>
    ensures at { result.at ≡ from }
    ensures bytes { result.bytes.now ≡ part p.now.parse.input from to }
{
    Piece {
        at: from,
        bytes: p.part(from, to),
    }
}

/// Writes the lines of a terminal whose text has so many bytes.
fn put_terminal<A: Allocator + Clone + Drop, S: Sink>(
    out: &mut S,
    line: &mut Tail,
    p: &Parsed<'_, A>,
    visit: Visit,
    count: u64,
) -> Result<(), SinkFault>
    ensures { visit.from + 2 ^ 32 ≤ 2 ^ 64
        → Puts result (spec.piece_of p.now.parse.input visit.depth visit.from (bare.end_of visit.from visit.to count) (codes "tok"))
        (S.output out.old) (S.faults out.old) (S.output out.new) (S.faults out.new) }
{
    let mut text = indent(visit.depth);
    text.push(b"tok");
    let end = end_of(visit.from, visit.to, count);
    put_piece(out, line, visit.depth, piece_of(p, visit.from, end), &text)
}

/// The value of a number in two halves.
fn value_of(high: u32, low: u32) -> u64
    ensures { result ≡ high * 2 ^ 32 + low }
{
    u64::from(high) * (1 << 32) + u64::from(low)
}

/// Writes the lines of a number.
fn put_number<A: Allocator + Clone + Drop, S: Sink>(
    out: &mut S,
    line: &mut Tail,
    p: &Parsed<'_, A>,
    visit: Visit,
    prim: Primitive,
    value: u64,
) -> Result<(), SinkFault>
    ensures { visit.from + 2 ^ 32 ≤ 2 ^ 64
        → Puts result (spec.piece_of p.now.parse.input visit.depth visit.from (bare.end_of visit.from visit.to (width prim))
        (lines.primitive_name prim ++ 32 ∷ decimal value))
        (S.output out.old) (S.faults out.old) (S.output out.new) (S.faults out.new) }
{
    let mut text = indent(visit.depth);
    text.push(prim.word());
    text.push(b" ");
    text.push_number(value);
    let end = end_of(visit.from, visit.to, u64::from(prim.width()));
    put_piece(out, line, visit.depth, piece_of(p, visit.from, end), &text)
}

/// Writes the lines of raw bytes.
fn put_raw<A: Allocator + Clone + Drop, S: Sink>(
    out: &mut S,
    line: &mut Tail,
    p: &Parsed<'_, A>,
    visit: Visit,
) -> Result<(), SinkFault>
    ensures { visit.from + 2 ^ 32 ≤ 2 ^ 64
        → Puts result (spec.piece_of p.now.parse.input visit.depth visit.from visit.to (codes "Bytes " ++ decimal (visit.to - visit.from)))
        (S.output out.old) (S.faults out.old) (S.output out.new) (S.faults out.new) }
{
    let mut text = indent(visit.depth);
    text.push(b"Bytes ");
    text.push_number(visit.to.saturating_sub(visit.from));
    put_piece(
        out,
        line,
        visit.depth,
        piece_of(p, visit.from, visit.to),
        &text,
    )
}

/// Writes the line of an array or a repetition.
fn put_items<A: Allocator + Clone + Drop, S: Sink>(
    out: &mut S,
    line: &mut Tail,
    p: &Parsed<'_, A>,
    depth: u64,
    kind: &[u8],
    items: Items,
) -> Result<(), SinkFault>
    ensures { (src : Source) (g : Grammar) (at : ℕ) (one : Sym) (rows : List Row) (kids : Kids) → StandFor p.now.parse.tables g
        → slice_get p.now.parse.tables.syms items.sym ≡ Some one → slice_get p.now.parse.store.kids items.list.place ≡ Some rows
        → StandKids src p.now.parse.store at rows kids
        → Puts result (spec.bare_line (spec.items_text g depth kind.now one kids)) (S.output out.old) (S.faults out.old) (S.output out.new) (S.faults out.new) }
{
    let mut text = indent(depth);
    text.push(kind);
    text.push(sym_name(p.tables(), items.sym));
    text.push(b" x ");
    text.push_number(p.items(items.list).len() as u64);
    put_bare_line(out, line, &text)
}

/// Writes the lines of a visit.
pub(crate) fn put_visit<A: Allocator + Clone + Drop, S: Sink>(
    out: &mut S,
    line: &mut Tail,
    p: &Parsed<'_, A>,
    visit: Visit,
) -> Result<(), SinkFault>
    ensures { (src : Source) (g : Grammar) (one : Seen) → Shares p.now.parse src g → Shows src p.now.parse.store visit one
        → Puts result (spec.seen_view g p.now.parse.input one) (S.output out.old) (S.faults out.old) (S.output out.new) (S.faults out.new) }
{
    match visit.kid {
        Kid::Node { .. } => put_tree(out, line, p, visit),
        Kid::Text { sym, .. } => put_terminal(out, line, p, visit, text_size(p.tables(), sym)),
        Kid::Number {
            prim,
            high,
            low,
            ..
        } => put_number(out, line, p, visit, prim, value_of(high, low)),
        Kid::Raw { .. } => put_raw(out, line, p, visit),
        Kid::Array { sym, items } => {
            put_items(
                out,
                line,
                p,
                visit.depth,
                b"for ",
                Items { sym, list: items },
            )
        }
        Kid::Many { sym, items } => {
            put_items(
                out,
                line,
                p,
                visit.depth,
                b"many ",
                Items { sym, list: items },
            )
        }
    }
}

/// Writes the lines of bytes that no leaf has.
fn put_gap<S: Sink>(
    out: &mut S,
    line: &mut Tail,
    from: u64,
    to: u64,
    bytes: &[u8],
) -> Result<(), SinkFault>
    ensures { from + 2 ^ 32 ≤ 2 ^ 64
        → Puts result (spec.piece 1 from bytes.now (codes "gap " ++ spec.interval from to []))
        (S.output out.old) (S.faults out.old) (S.output out.new) (S.faults out.new) }
{
    let mut text = indent(1);
    text.push(b"gap ");
    push_interval(&mut text, from, to);
    put_piece(out, line, 1, Piece { at: from, bytes }, &text)
}

/// Where a run of bytes that no leaf has began, and the place that was come to.
#[derive(Clone, Copy)]
struct Run {
    begun: Option<u64>,
    at: u64,
}

/// The run at the next place.
fn next_run(run: Run, is_bare: bool) -> Run
    requires { run.at < 2 ^ 63 }
    ensures begun { result.begun ≡ begun_at is_bare run.at run.begun }
    ensures at { result.at ≡ run.at + 1 }
{
    let begun = if is_bare {
        Some(run.begun.unwrap_or(run.at))
    } else {
        None
    };
    Run {
        begun,
        at: run.at + 1,
    }
}

/// Writes the lines of a run that ends here, if one began.
fn put_ended<A: Allocator + Clone + Drop, S: Sink>(
    out: &mut S,
    line: &mut Tail,
    p: &Parsed<'_, A>,
    run: Run,
) -> Result<(), SinkFault>
    ensures { ((from : ℕ) → run.begun ≡ Some from → from + 2 ^ 32 ≤ 2 ^ 64)
        → Puts result (flat_map (spec.gap_view p.now.parse.input) (ended run.at run.begun)) (S.output out.old) (S.faults out.old)
        (S.output out.new) (S.faults out.new) }
{
    match run.begun {
        Some(from) => put_gap(out, line, from, run.at, p.part(from, run.at)),
        None => put(out, b""),
    }
}

/// Writes the lines of a run that ends at a place, where no leaf has the byte there or one does.
fn put_run<A: Allocator + Clone + Drop, S: Sink>(
    out: &mut S,
    line: &mut Tail,
    p: &Parsed<'_, A>,
    run: Run,
    is_bare: bool,
) -> Result<(), SinkFault>
    ensures { ((from : ℕ) → run.begun ≡ Some from → from + 2 ^ 32 ≤ 2 ^ 64)
        → Puts result (flat_map (spec.gap_view p.now.parse.input) (ended_at is_bare run.at run.begun)) (S.output out.old) (S.faults out.old)
        (S.output out.new) (S.faults out.new) }
{
    if is_bare {
        put(out, b"")
    } else {
        put_ended(out, line, p, run)
    }
}

/// Writes the lines of all runs.
fn put_gaps<A: Allocator + Clone + Drop, S: Sink>(
    out: &mut S,
    line: &mut Tail,
    p: &Parsed<'_, A>,
    bare: &[bool],
) -> Result<(), SinkFault>
    ensures { Puts result (flat_map (spec.gap_view p.now.parse.input) (runs 0 None bare.now)) (S.output out.old) (S.faults out.old)
        (S.output out.new) (S.faults out.new) }
{
    let mut run = Run { begun: None, at: 0 };
    for is_bare in bare {
        put_run(out, line, p, run, *is_bare)?;
        run = next_run(run, *is_bare);
    }
    put_ended(out, line, p, run)
}

/// Writes the lines of the tree beside the bytes, each as the walk comes to it, and then those of the bytes that no leaf has,
/// as `bare_places` says. Takes no memory.
pub fn print_view<A: Allocator + Clone + Drop, S: Sink>(
    p: &mut Parsed<'_, A>,
    bare: &[bool],
    out: &mut S,
) -> Result<(), SinkFault>
    ensures parse { p.new.parse ≡ p.old.parse }
    ensures view { (src : Source) (g : Grammar) (one : Tree) → IsTree p.old.parse src g one
        → Puts result (spec.view_by g p.old.parse.input one bare.now) (S.output out.old) (S.faults out.old) (S.output out.new) (S.faults out.new) }
{
    p.rewind();
    let mut line = Tail::new();
    while let Some(visit) = p.next() {
        put_visit(out, &mut line, p, visit)?;
    }
    put_gaps(out, &mut line, p, bare)
}
