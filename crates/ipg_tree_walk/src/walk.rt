//! A walk over what stands in a store.

ghost use Rattle.std.specs.Prelude.{◌≡◌, ◌+◌, ◌*◌, ◌^◌, ◌<◌, ◌≤◌, ℕ, List, [], ◌∷◌, ◌++◌, length, slice_get, None, IsSomeAnd, OnSome, MatchOption, ◌-◌};
ghost use Rattle.ipg_core.specs.Tree as tree;
ghost use Rattle.ipg_core.specs.Tree.{Tree};
ghost use Rattle.ipg_mach_nodes.specs.Stored.{Stored, Source, StandsTree, StandsKid, kid_levels};
ghost use Rattle.ipg_tree_walk.specs.declared.stack.Level.{Level};
ghost use Rattle.ipg_tree_walk.specs.Visits.{Seen, whole, size_of, kids_visits, kids_in, kids_in_tree, place_in, size_in, from_of, end_in};
ghost use Rattle.ipg_region.specs.declared.region.RunId.{RunId as Place};
ghost use Rattle.ipg_tree_walk.specs.Left.{NodeAt, NodeOf, Shows, Holds, Takes, TakesIf, Follows, Leave, EntersIf};
ghost use Rattle.ipg_tree_walk.specs.Falls.{wide};
ghost use Rattle.ipg_tree_walk.specs.Steps.{steps};

use crate::stack::{Level, LevelStack};
use ipg_mach_nodes::{Kid, Node, RunId, Store};
use ipg_num::item_at;
use std::alloc::Allocator;

/// A child: how deep it lies, the places of the input where its interval begins and ends, its row, and the node that the
/// row names. An array and a repetition have the interval of the node that they lie in.
#[derive(Clone, Copy, Debug, PartialEq, Eq)]
pub struct Visit {
    pub depth: u64,
    pub from: u64,
    pub to: u64,
    pub kid: Kid,
    pub node: Option<Node>,
}

/// An interval of a part: its bytes from `from` up to `to`, counted from the part's first byte.
#[derive(Clone, Copy)]
pub struct Interval {
    pub from: u32,
    pub to: u32,
}

/// The interval of a child in a part of `size` bytes; that of an array and a repetition is the whole part.
pub fn interval_of(kid: Kid, size: u32) -> Interval
    ensures { (src : Source) (st : Stored) (at : ℕ) (one : tree.Kid) → StandsKid src st at kid one
        → (result.from ≡ from_of one) × (result.to ≡ end_in size one) }
{
    match kid {
        Kid::Node { from, to, .. } => Interval { from, to },
        Kid::Text { from, to, .. } => Interval { from, to },
        Kid::Number { from, to, .. } => Interval { from, to },
        Kid::Raw { from, to } => Interval { from, to },
        Kid::Array { .. } => Interval { from: 0, to: size },
        Kid::Many { .. } => Interval { from: 0, to: size },
    }
}

/// The node that a row names.
fn node_of<A: Allocator + Clone + Drop>(store: &Store<A>, kid: Kid) -> Option<Node>
    ensures { NodeOf store.now kid result }
{
    match kid {
        Kid::Node { id, .. } => store.node(id),
        _ => None,
    }
}

/// The level of the children of a node, whose part begins at `at`.
fn level_of(node: Option<Node>, at: u64) -> Option<Level>
    ensures { (src : Source) (st : Stored) (id : Place) (one : Tree) → NodeAt st id node → StandsTree src st at id one
        → IsSomeAnd result (λ level. (level.at ≡ at) × (level.size ≡ size_of one) × Holds src st level (kids_in_tree one)) }
{
    match node {
        Some(node) => Some(Level {
            list: Some(node.kids),
            next: 0,
            at,
            size: node.head.size,
        }),
        None => None,
    }
}

/// The level of what lies in a child of a part of `size` bytes that begins at `at`; None where nothing can.
fn level_in(kid: Kid, node: Option<Node>, at: u64, size: u32) -> Option<Level>
    ensures { (src : Source) (st : Stored) (one : tree.Kid) → NodeOf st kid node → StandsKid src st at kid one → place_in at one < 2 ^ 64
        → EntersIf src st result at size one }
{
    match kid {
        Kid::Node { from, .. } => level_of(node, at.saturating_add(u64::from(from))),
        Kid::Array { items, .. } => Some(Level {
            list: Some(items),
            next: 0,
            at,
            size,
        }),
        Kid::Many { items, .. } => Some(Level {
            list: Some(items),
            next: 0,
            at,
            size,
        }),
        Kid::Text { .. } => None,
        Kid::Number { .. } => None,
        Kid::Raw { .. } => None,
    }
}

/// Goes into a child of a part of `size` bytes that begins at `at`.
pub(crate) fn enter<A: Allocator + Clone + Drop>(
    stack: &mut LevelStack<A>,
    kid: Kid,
    node: Option<Node>,
    at: u64,
    size: u32,
)
    ensures room { stack.new.room ≡ stack.old.room }
    ensures full { stack.old.room ≤ length stack.old.levels → stack.new.levels ≡ stack.old.levels }
    ensures ends { length stack.old.levels < stack.old.room
        → steps stack.new.room stack.new.levels ≤ (2 ^ 64 + 1) * wide ^ (stack.old.room - length stack.old.levels) + steps stack.old.room
        stack.old.levels }
    ensures entered { (src : Source) (st : Stored) → NodeOf st kid node → (one : tree.Kid) (more : List Seen) → StandsKid src st at kid one
        → place_in at one < 2 ^ 64 → place_in at one ≤ length stack.old.levels * 2 ^ 32 → length stack.old.levels + kid_levels one ≤ stack.old.room
        → Leave src st stack.old.room stack.old.levels more
        → Leave src st stack.new.room stack.new.levels (kids_visits (length stack.old.levels + 1) (place_in at one) (size_in size one) (kids_in one) ++ more) }
{
    if let Some(level) = level_in(kid, node, at, size) {
        stack.push(level);
    }
}

/// The row that came next in a level, and the level behind it.
#[derive(Clone, Copy)]
struct Taken {
    kid: Kid,
    rest: Level,
}

/// The level behind its next row, where it has so many rows in all.
fn behind(level: Level, count: usize) -> Level
    requires { level.next < 2 ^ 63 }
    ensures at { result.at ≡ level.at }
    ensures size { result.size ≡ level.size }
    ensures next { result.next ≡ level.next + 1 }
    ensures more { level.next + 1 < count → result.list ≡ level.list }
    ensures none { count ≤ level.next + 1 → result.list ≡ None }
{
    let next = level.next + 1;
    Level {
        list: if next < count { level.list } else { None },
        next,
        at: level.at,
        size: level.size,
    }
}

/// The row that comes next in a level with these rows; None where none is left.
fn next_of(rows: &[Kid], level: Level) -> Option<Taken>
    ensures { MatchOption result (slice_get rows.now level.next ≡ None) (λ taken. Follows level rows.now taken) }
{
    match item_at(rows, level.next) {
        Some(kid) => Some(Taken {
            kid: *kid,
            rest: behind(level, rows.len()),
        }),
        None => None,
    }
}

/// The row that comes next in a level; None where none is left.
fn next_in<A: Allocator + Clone + Drop>(store: &Store<A>, level: Level) -> Option<Taken>
    ensures { TakesIf store.now level result }
{
    match level.list {
        Some(list) => next_of(store.kids(list), level),
        None => None,
    }
}

/// The visit of a child of a part of `size` bytes that begins at `at`.
fn shown(depth: u64, at: u64, size: u32, kid: Kid, node: Option<Node>) -> Visit
    ensures near { (src : Source) (st : Stored) (one : tree.Kid) → StandsKid src st at kid one → from_of one < 2 ^ 32 }
    ensures shows { (src : Source) (st : Stored) → NodeOf st kid node → (one : tree.Kid) → StandsKid src st at kid one → at + 2 ^ 33 ≤ 2 ^ 64
        → Shows src st result (record { depth = depth; at = at; size = size; child = one }) }
{
    let interval = interval_of(kid, size);
    Visit {
        depth,
        from: at.saturating_add(u64::from(interval.from)),
        to: at.saturating_add(u64::from(interval.to)),
        kid,
        node,
    }
}

/// The visit of a row that came next in the innermost level: that level goes on without it, and the level of what lies in
/// the child is put into it.
#[inline(always)]
fn go_on<A: Allocator + Clone + Drop>(
    store: &Store<A>,
    stack: &mut LevelStack<A>,
    taken: Taken,
) -> Visit
    ensures room { stack.new.room ≡ stack.old.room }
    ensures ends { (level : Level) (around : List Level) → stack.old.levels ≡ level ∷ around → Takes store.now level taken
        → steps stack.new.room stack.new.levels < steps stack.old.room (level ∷ around) }
    ensures visited { (src : Source) (level : Level) (around : List Level) (one : Seen) (more : List Seen) → stack.old.levels ≡ level ∷ around
        → Takes store.now level taken → Leave src store.now stack.old.room (level ∷ around) (one ∷ more)
        → Shows src store.now result one × Leave src store.now stack.new.room stack.new.levels more }
{
    let depth = stack.len();
    let (at, size) = (taken.rest.at, taken.rest.size);
    stack.replace(taken.rest);
    let node = node_of(store, taken.kid);
    let visit = shown(depth, at, size, taken.kid, node);
    enter(stack, taken.kid, node, at, size);
    visit
}

/// The next visit; None at the end.
#[inline(always)]
pub(crate) fn step<A: Allocator + Clone + Drop>(
    store: &Store<A>,
    stack: &mut LevelStack<A>,
) -> Option<Visit>
    ensures room { stack.new.room ≡ stack.old.room }
    ensures ends { OnSome result (steps stack.new.room stack.new.levels < steps stack.old.room stack.old.levels) }
    ensures end { (src : Source) → Leave src store.now stack.old.room stack.old.levels [] → result ≡ None }
    ensures more { (src : Source) (one : Seen) (more : List Seen) → Leave src store.now stack.old.room stack.old.levels (one ∷ more)
        → IsSomeAnd result (λ visit. Shows src store.now visit one) × Leave src store.now stack.new.room stack.new.levels more }
{
    while let Some(level) = stack.last() {
        if let Some(taken) = next_in(store, level) {
            return Some(go_on(store, stack, taken));
        }
        stack.leave();
    }
    None
}

/// The visit of the root of a tree, which is this node.
pub(crate) fn root_visit(root: RunId, node: Option<Node>) -> Visit
    ensures { (src : Source) (st : Stored) (one : Tree) → NodeAt st root node → StandsTree src st 0 root one
        → Shows src st result (record { depth = 0; at = 0; size = size_of one; child = whole one }) }
{
    let to = match node {
        Some(node) => node.head.size,
        None => 0,
    };
    Visit {
        depth: 0,
        from: 0,
        to: u64::from(to),
        kid: Kid::Node {
            id: root,
            from: 0,
            to,
        },
        node,
    }
}
