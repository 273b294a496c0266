//! A walk over a spot and all that lies in it, in memory that was taken for it.
ghost use Rattle.std.specs.Prelude.{◌≡◌, ◌+◌, ◌*◌, ◌^◌, ◌<◌, ◌≤◌, ◌-◌, ℕ, List, [], ◌∷◌, length, None, IfOk, IsSomeAnd, OnSome, MatchOption};
ghost use Rattle.ipg_core.specs.Tree as tree;
ghost use Rattle.ipg_core.specs.Tree.{Tree};
ghost use Rattle.ipg_mach_nodes.specs.Stored.{Source, Stored, StandsKid, StandsTree, kid_levels, tree_levels};
ghost use Rattle.ipg_tree_walk.specs.Left.{StandsNode};
ghost use Rattle.ipg_tree_walk.specs.Visits.{Seen, place_in, size_in, kids_in, to_of};
ghost use Rattle.ipg_query.specs.Inside.{Lot, lot_of, IsLast, Replaces, Leaves, IsDeep, LotOf, Entered, Leave, visits_of, steps};
ghost use Rattle.ipg_tree_walk.specs.Falls.{wide};
ghost use Rattle.ipg_query.specs.Picked.{Found};
ghost use Rattle.ipg_query.specs.Spots.{IsNear, IsSpot};

use crate::rows::{place_in, rows_in};
use crate::spot::Spot;
use ipg_mach_nodes::{Kid, Node};
use ipg_tree_walk::Parsed;
use std::alloc::{AllocError, Allocator, Global};
use std::marker::Model;

/// Rows that are left of a list, and the part that they lie in: the place of the input where it begins, and how many bytes it has.
#[derive(Clone, Copy)]
pub(crate) struct OpenList<'b> {
    rows: &'b [Kid],
    at: u32,
    size: u32,
}

/// What a walk comes to: how deep it lies in what was begun with, and how many bytes the part has that it lies in.
#[derive(Clone, Copy, Debug, PartialEq, Eq)]
pub struct Deep {
    pub depth: u64,
    pub size: u32,
    pub spot: Spot,
}

/// The lists that a walk is in, in memory that was taken for `room` of them.
#[derive(Drop)]
pub struct Walk<'b> {
    levels: Vec<OpenList<'b>>,
    room: u32,
}

impl<'b> Model for Walk<'b> {
    ghost use Rattle.ipg_query.specs.Inside.{Walked};

    ghost Value = { Walked };

    ghost use Rattle.ipg_query.specs.Inside.{walked, IsRoomy};

    ghost view = { λ w. walked w };

    ghost invariant = { λ w. IsRoomy w };
}

impl<'b> Walk<'b> {
    /// A walk with nothing ahead, and room for so many lists within one another.
    pub fn with_room(alloc: Global, room: u32) -> Result<Walk<'b>, AllocError>
        ensures { IfOk result (λ walk. walk ≡ record { levels = []; room = room }) }
    {
        Ok(Walk {
            levels: Vec::with_capacity(alloc, room as usize)?,
            room,
        })
    }

    fn len(&self) -> u64
        ensures value { result ≡ length self.now.levels }
        ensures small { result < 2 ^ 63 }
    {
        self.levels.len() as u64
    }

    /// Puts a level into the others, where there is room for it.
    fn push(&mut self, level: OpenList<'b>)
        ensures room { self.new.room ≡ self.old.room }
        ensures pushed { length self.old.levels < self.old.room → self.new.levels ≡ lot_of level.entry ∷ self.old.levels }
        ensures full { self.old.room ≤ length self.old.levels → self.new.levels ≡ self.old.levels }
    {
        if self.levels.len() < self.room as usize {
            self.levels.push_reserved(level);
        }
    }

    /// The innermost level; None where there is none.
    fn last(&self) -> Option<OpenList<'b>>
        ensures { MatchOption result (self.now.levels ≡ []) (λ level. IsLast (lot_of level) self.now.levels) }
    {
        self.levels.last().copied()
    }

    /// Puts a level in the place of the innermost one.
    fn replace(&mut self, level: OpenList<'b>)
        ensures room { self.new.room ≡ self.old.room }
        ensures replaced { Replaces (lot_of level.entry) self.old.levels self.new.levels }
    {
        if let Some(_) = self.levels.pop() {
            self.levels.push_reserved(level);
        }
    }

    /// Takes the innermost level away.
    fn leave(&mut self)
        ensures room { self.new.room ≡ self.old.room }
        ensures left { Leaves self.old.levels self.new.levels }
    {
        let _ = self.levels.pop();
    }

    fn clear(&mut self)
        ensures { self.new ≡ record self.old { levels = [] } }
    {
        self.levels.clear();
    }
}

/// How many bytes the part has that the rows in a spot lie in, where the spot lies in one of `size` bytes.
fn size_in<A: Allocator + Clone + Drop>(p: &Parsed<'_, A>, size: u32, kid: Kid) -> u32
    ensures { (src : Source) (at : ℕ) (one : tree.Kid) → StandsKid src p.now.parse.store at kid one → result ≡ size_in size one }
{
    match kid {
        Kid::Node { id, .. } => p.size(id),
        Kid::Text { .. } => size,
        Kid::Number { .. } => size,
        Kid::Raw { .. } => size,
        Kid::Array { .. } => size,
        Kid::Many { .. } => size,
    }
}

/// The level of what lies in a spot of a part of `size` bytes.
fn level_in<'b, A: Allocator + Clone + Drop>(
    p: &'b Parsed<'_, A>,
    size: u32,
    spot: Spot,
) -> OpenList<'b>
    ensures { (src : Source) (one : tree.Kid) → StandsKid src p.now.parse.store spot.at spot.kid one → IsNear spot.at one
        → LotOf src p.now.parse.store (lot_of result) spot.at size one }
{
    OpenList {
        rows: rows_in(p, spot.kid),
        at: place_in(spot),
        size: size_in(p, size, spot.kid),
    }
}

/// Goes into a spot of a part of `size` bytes, where something lies in it and there is room.
fn enter<'b, A: Allocator + Clone + Drop>(
    walk: &mut Walk<'b>,
    p: &'b Parsed<'_, A>,
    size: u32,
    spot: Spot,
)
    ensures room { walk.new.room ≡ walk.old.room }
    ensures full { walk.old.room ≤ length walk.old.levels → walk.new.levels ≡ walk.old.levels }
    ensures ends { length walk.old.levels < walk.old.room
        → steps walk.new.room walk.new.levels ≤ (2 ^ 64 + 1) * wide ^ (walk.old.room - length walk.old.levels) + steps walk.old.room walk.old.levels }
    ensures entered { (src : Source)
        → Entered src p.now.parse.store walk.old.room walk.old.levels spot.at spot.kid size walk.new.room walk.new.levels }
{
    let level = level_in(p, size, spot);
    if level.rows.len() > 0 {
        walk.push(level);
    }
}

/// What a walk comes to by a row of the innermost level, of which the others are left: it goes into that.
fn go_on<'b, A: Allocator + Clone + Drop>(
    walk: &mut Walk<'b>,
    p: &'b Parsed<'_, A>,
    kid: Kid,
    rest: OpenList<'b>,
) -> Deep
    ensures room { walk.new.room ≡ walk.old.room }
    ensures ends { (level : Lot) (around : List Lot) → walk.old.levels ≡ level ∷ around → level.rows ≡ kid ∷ rest.entry.rows.now
        → steps walk.new.room walk.new.levels < steps walk.old.room (level ∷ around) }
    ensures visited { (src : Source) (level : Lot) (around : List Lot) (one : Seen) (more : List Seen) → walk.old.levels ≡ level ∷ around
        → level ≡ record { rows = kid ∷ rest.entry.rows.now; at = rest.entry.at; size = rest.entry.size }
        → Leave src p.now.parse.store walk.old.room (level ∷ around) (one ∷ more)
        → IsDeep src p.now.parse.store result one × Leave src p.now.parse.store walk.new.room walk.new.levels more }
{
    let depth = walk.len();
    let spot = Spot { at: rest.at, kid };
    let size = rest.size;
    walk.replace(rest);
    enter(walk, p, size, spot);
    Deep { depth, size, spot }
}

/// The next that a walk comes to; None at the end.
pub fn next<'b, A: Allocator + Clone + Drop>(
    walk: &mut Walk<'b>,
    p: &'b Parsed<'_, A>,
) -> Option<Deep>
    ensures room { walk.new.room ≡ walk.old.room }
    ensures ends { OnSome result (steps walk.new.room walk.new.levels < steps walk.old.room walk.old.levels) }
    ensures end { (src : Source) → Leave src p.now.parse.store walk.old.room walk.old.levels [] → result ≡ None }
    ensures more { (src : Source) (one : Seen) (more : List Seen) → Leave src p.now.parse.store walk.old.room walk.old.levels (one ∷ more)
        → IsSomeAnd result (λ deep. IsDeep src p.now.parse.store deep one)
        × Leave src p.now.parse.store walk.new.room walk.new.levels more }
{
    while let Some(level) = walk.last() {
        if let Some((kid, rows)) = level.rows.split_first() {
            let rest = OpenList {
                rows,
                at: level.at,
                size: level.size,
            };
            return Some(go_on(walk, p, *kid, rest));
        }
        walk.leave();
    }
    None
}

/// Begins a walk over a spot, which is the first that it comes to, with what lies in it ahead.
pub fn begin<'b, A: Allocator + Clone + Drop>(
    walk: &mut Walk<'b>,
    p: &'b Parsed<'_, A>,
    size: u32,
    spot: Spot,
) -> Deep
    ensures room { walk.new.room ≡ walk.old.room }
    ensures begun { (src : Source) (x : Found) (one : Seen) (more : List Seen) → IsSpot src p.now.parse.store spot x
        → kid_levels x.child ≤ walk.old.room → visits_of size x ≡ one ∷ more
        → IsDeep src p.now.parse.store result one × Leave src p.now.parse.store walk.new.room walk.new.levels more }
{
    walk.clear();
    enter(walk, p, size, spot);
    Deep {
        depth: 0,
        size,
        spot,
    }
}

/// The levels that a node says it has.
fn levels_at(node: Option<Node>) -> u32
    ensures { (src : Source) (st : Stored) (at : ℕ) (one : Tree) → StandsNode src st at node one → tree_levels one ≤ result }
{
    match node {
        Some(node) => node.levels,
        None => 0,
    }
}

/// At least as many lists as lie within one another in the tree at the root.
pub fn levels_of<A: Allocator + Clone + Drop>(p: &mut Parsed<'_, A>) -> u32
    ensures parse { p.new.parse ≡ p.old.parse }
    ensures levels { (src : Source) (one : Tree) → StandsTree src p.old.parse.store 0 p.old.parse.root one → tree_levels one ≤ result }
{
    p.rewind();
    match p.next() {
        Some(visit) => levels_at(visit.node),
        None => 0,
    }
}
