//! What a path picks, beside its bytes.

ghost use Rattle.std.specs.Prelude.{◌≡◌, ◌+◌, ◌≤◌, ◌^◌, ◌++◌, ℕ, ℤ, List, codes, flat_map, None, IfOk, IfErr};
ghost use Rattle.std.specs.Fmt.{signed_decimal};
ghost use Rattle.ipg_core.specs.Grammar.{Grammar};
ghost use Rattle.ipg_core.specs.Tree as tree;
ghost use Rattle.ipg_core.specs.Tree.{Tree};
ghost use Rattle.ipg_mach_nodes.specs.Stored.{Source, Stored, StandsKid, StandsTree, kid_levels};
ghost use Rattle.ipg_table.specs.Rows.{StandFor};
ghost use Rattle.ipg_tree_walk.specs.Left.{NodeOf, Shows};
ghost use Rattle.ipg_tree_walk.specs.Visits.{Seen, from_of, end_in};
ghost use Rattle.ipg_query.specs.Hits as hits;
ghost use Rattle.ipg_query.specs.Inside.{IsDeep};
ghost use Rattle.ipg_query.specs.Laws.{AreShallow};
ghost use Rattle.ipg_query.specs.Picked.{Found, field_named};
ghost use Rattle.ipg_query.specs.Spots.{IsSpot, AreSpots};
ghost use Rattle.ipg_tree.specs.Puts.{Puts};
ghost use Rattle.ipg_tree_view.specs.Cutting.{begun};
ghost use Rattle.ipg_tree_view.specs.Picked as spec;
ghost use Rattle.ipg_tree_view.specs.View as lines;

use crate::columns::put_line;
use crate::cut::Cut;
use crate::view::{Extent, node_text, put_visit};
use crate::words::put;
use ipg_mach_nodes::{Kid, RunId};
use ipg_outside::{Sink, SinkFault};
use ipg_query::laws::members_are_shallow;
use ipg_query::{Deep, Query, Spot, Walk, begin, field_named, levels_of, members, next};
use ipg_query_path::Name;
use ipg_tree::Tail;
use ipg_tree_walk::{Parsed, Visit, interval_of};
use std::alloc::{AllocError, Allocator, Global};

/// The visit of what is no node.
fn visit_of(deep: Deep) -> Visit
    ensures kid { result.kid ≡ deep.spot.kid }
    ensures shows { (src : Source) (st : Stored) (one : Seen) → IsDeep src st deep one → NodeOf st deep.spot.kid None → Shows src st result one }
{
    let interval = interval_of(deep.spot.kid, deep.size);
    let at = u64::from(deep.spot.at);
    Visit {
        depth: deep.depth,
        from: at.saturating_add(u64::from(interval.from)),
        to: at.saturating_add(u64::from(interval.to)),
        kid: deep.spot.kid,
        node: None,
    }
}

/// Writes the line of a node whose part begins at `at`; nothing where there is no node.
fn put_node_at<A: Allocator + Clone + Drop, S: Sink>(
    out: &mut S,
    line: &mut Tail,
    p: &Parsed<'_, A>,
    depth: u64,
    at: u64,
    id: RunId,
) -> Result<(), SinkFault>
    ensures { (src : Source) (g : Grammar) (begin : ℕ) (one : Tree) → StandFor p.now.parse.tables g → StandsTree src p.now.parse.store begin id one
        → at + 2 ^ 32 ≤ 2 ^ 64
        → Puts result (lines.tree_head g depth at one) (S.output out.old) (S.faults out.old) (S.output out.new) (S.faults out.new) }
{
    match p.rule(id) {
        Some(rule) => {
            let extent = Extent {
                at,
                size: p.size(id),
            };
            let text = node_text(p.tables(), depth, extent, rule, p.attrs(id));
            put_line(out, line, at, &[], &text)
        }
        None => put(out, b""),
    }
}

/// Writes the lines of what a walk comes to.
fn put_deep<A: Allocator + Clone + Drop, S: Sink>(
    out: &mut S,
    line: &mut Tail,
    p: &Parsed<'_, A>,
    deep: Deep,
) -> Result<(), SinkFault>
    ensures { (src : Source) (g : Grammar) (one : Seen) → hits.Shares p.now.parse src g → IsDeep src p.now.parse.store deep one
        → Puts result (lines.seen_view g p.now.parse.input one) (S.output out.old) (S.faults out.old) (S.output out.new) (S.faults out.new) }
{
    match deep.spot.kid {
        Kid::Node { id, from, .. } => {
            let at = u64::from(deep.spot.at) + u64::from(from);
            put_node_at(out, line, p, deep.depth, at, id)
        }
        _ => put_visit(out, line, p, visit_of(deep)),
    }
}

/// Writes the lines of a spot and of all that lies in it.
fn put_member<'b, A: Allocator + Clone + Drop, S: Sink>(
    out: &mut S,
    line: &mut Tail,
    p: &'b Parsed<'_, A>,
    walk: &mut Walk<'b>,
    spot: Spot,
) -> Result<(), SinkFault>
    ensures room { walk.new.room ≡ walk.old.room }
    ensures member { (src : Source) (g : Grammar) (x : Found) → hits.Shares p.now.parse src g → IsSpot src p.now.parse.store spot x
        → kid_levels x.child ≤ walk.old.room
        → Puts result (spec.member_view g p.now.parse.input x) (S.output out.old) (S.faults out.old) (S.output out.new) (S.faults out.new) }
{
    let first = begin(walk, p, 0, spot);
    put_deep(out, line, p, first)?;
    while let Some(deep) = next(walk, p) {
        put_deep(out, line, p, deep)?;
    }
    Ok(())
}

/// What is said of the value of a field.
fn value_text(name: &[u8], value: i64) -> Cut
    ensures { result ≡ begun (name.now ++ (codes "=" ++ signed_decimal value)) }
{
    let mut text = Cut::new();
    text.push(name);
    text.push(b"=");
    text.push_signed(value);
    text
}

/// Writes the line of the value of a field of a spot; nothing where it hasn't that.
fn put_value<A: Allocator + Clone + Drop, S: Sink>(
    out: &mut S,
    line: &mut Tail,
    p: &Parsed<'_, A>,
    name: &[u8],
    spot: Spot,
) -> Result<(), SinkFault>
    ensures { (src : Source) (g : Grammar) (x : Found) → hits.Shares p.now.parse src g → IsSpot src p.now.parse.store spot x
        → Puts result (spec.value_view name.now x (field_named g name.now x)) (S.output out.old) (S.faults out.old) (S.output out.new) (S.faults out.new) }
{
    match field_named(p, spot, name) {
        Some(value) => {
            let at = u64::from(spot.at) + u64::from(interval_of(spot.kid, 0).from);
            let text = value_text(name, value);
            put_line(out, line, at, &[], &text)
        }
        None => put(out, b""),
    }
}

/// Writes what is shown of a spot.
fn put_shown<'b, A: Allocator + Clone + Drop, S: Sink>(
    out: &mut S,
    line: &mut Tail,
    p: &'b Parsed<'_, A>,
    walk: &mut Walk<'b>,
    field: &Option<Name>,
    spot: Spot,
) -> Result<(), SinkFault>
    ensures room { walk.new.room ≡ walk.old.room }
    ensures shown { (src : Source) (g : Grammar) (x : Found) → hits.Shares p.now.parse src g → IsSpot src p.now.parse.store spot x
        → kid_levels x.child ≤ walk.old.room
        → Puts result (spec.shown_view g p.now.parse.input field.now x) (S.output out.old) (S.faults out.old) (S.output out.new) (S.faults out.new) }
{
    match field {
        None => put_member(out, line, p, walk, spot),
        Some(name) => put_value(out, line, p, name.as_slice(), spot),
    }
}

/// Writes what is shown of spots, one by one.
fn put_spots<'b, A: Allocator + Clone + Drop, S: Sink>(
    out: &mut S,
    p: &'b Parsed<'_, A>,
    walk: &mut Walk<'b>,
    field: &Option<Name>,
    spots: &[Spot],
) -> Result<(), SinkFault>
    ensures { (src : Source) (g : Grammar) (xs : List Found) → hits.Shares p.now.parse src g → AreSpots src p.now.parse.store spots.now xs
        → AreShallow walk.old.room xs
        → Puts result (flat_map (spec.shown_view g p.now.parse.input field.now) xs) (S.output out.old) (S.faults out.old)
        (S.output out.new) (S.faults out.new) }
{
    let mut line = Tail::new();
    for spot in spots {
        put_shown(out, &mut line, p, walk, field, *spot)?;
    }
    Ok(())
}

/// Writes what is shown of spots, by a walk with room for so many lists within one another.
fn put_in_room<A: Allocator + Clone + Drop, S: Sink>(
    alloc: Global,
    p: &Parsed<'_, A>,
    room: u32,
    field: &Option<Name>,
    spots: &[Spot],
    out: &mut S,
) -> Result<Result<(), SinkFault>, AllocError>
    ensures memory { IfErr result (λ _. S.output out.new ≡ S.output out.old) }
    ensures spots { (src : Source) (g : Grammar) (xs : List Found) → hits.Shares p.now.parse src g → AreSpots src p.now.parse.store spots.now xs
        → AreShallow room xs
        → IfOk result (λ put. Puts put (flat_map (spec.shown_view g p.now.parse.input field.now) xs) (S.output out.old) (S.faults out.old)
        (S.output out.new) (S.faults out.new)) }
{
    let mut walk = Walk::with_room(alloc, room)?;
    let put = put_spots(out, p, &mut walk, field, spots);
    Ok(put)
}

/// Writes what a path picks of the tree beside the bytes: each result with all that lies in it, or the value of the field that is asked
/// for. All memory is taken before anything is written.
pub fn print_picked<A: Allocator + Clone + Drop, S: Sink>(
    alloc: Global,
    query: &Query,
    p: &mut Parsed<'_, A>,
    out: &mut S,
) -> Result<Result<(), SinkFault>, AllocError>
    ensures memory { IfErr result (λ _. S.output out.new ≡ S.output out.old) }
    ensures picked { (src : Source) (g : Grammar) (one : Tree) → hits.IsTree p.old.parse src g one
        → IfOk result (λ put. Puts put (spec.picked_view g p.old.parse.input query.now one) (S.output out.old) (S.faults out.old)
        (S.output out.new) (S.faults out.new)) }
{
    let spots = members(alloc, query, p)?;
    let room = levels_of(p);
    members_are_shallow();
    put_in_room(alloc, p, room, &query.field, &spots, out)
}
