//! Which bytes a stored child touches.

ghost use Rattle.std.specs.Prelude.{◌≡◌, ℕ, ◌-◌, ◌^◌, ◌<◌, ◌≤◌, false, List, length, slice_get, Some};
ghost use Rattle.ipg_core.specs.declared.grammar.Sym.TheVariants.{Text};
ghost use Rattle.ipg_core.specs.Touch as spec;
ghost use Rattle.ipg_mach_nodes.specs.Stored.{tree_levels, kid_levels};
ghost use Rattle.ipg_mach_results.specs.Standing.{OfKid, OfTree};
ghost use Rattle.ipg_mach_results.specs.Flat.{has_items};
ghost use Rattle.ipg_mach_results.specs.Ends.{ends_view};

use crate::attrs::node_at;
use ipg_core::grammar::{Primitive, Sym};
use ipg_mach_nodes::{Head, Kid, RunId, Store};
use ipg_table::tables::Tables;
use std::alloc::Allocator;

/// Where a result begins and ends to touch bytes, as bytes of its parent's part.
#[derive(Clone, Copy, Debug, PartialEq, Eq)]
pub struct Ends {
    pub start: u64,
    pub end: u64,
}

/// What is touched, and how many lists of children and of items lie within one another there at most.
#[derive(Clone, Copy, Debug, PartialEq, Eq)]
pub struct Extent {
    pub ends: Ends,
    pub levels: u64,
}

/// Whether there are bytes between the ends.
pub fn touches(ends: Ends) -> bool
    ensures { result ≡ spec.touches (ends_view ends) }
{
    ends.start < ends.end
}

/// The text of a terminal, by the number of its symbol; empty where that is none.
fn text(tables: &Tables, sym: u32) -> &[u8]
    ensures { (bytes : List ℕ) → slice_get tables.now.syms sym ≡ Some (Text bytes) → result.now ≡ bytes }
{
    match tables.symbol_at(sym) {
        Some(Sym::Text(bytes)) => bytes.as_slice(),
        _ => &[],
    }
}

/// Nothing of an interval.
#[tactic(auto, unfolding(ipg_core::specs::Touch::moved, ipg_core::specs::Touch::untouched))]
fn nothing_of(from: u32, to: u32) -> Ends
    ensures { ends_view result ≡ spec.moved from (spec.untouched (to - from)) }
{
    Ends {
        start: u64::from(from.max(to)),
        end: u64::from(from),
    }
}

/// The bytes of a terminal from the start of its interval on; nothing of that where there are none.
#[tactic(auto, unfolding(ipg_core::specs::Touch::moved, ipg_core::specs::Touch::first_of))]
fn text_ends(from: u32, to: u32, bytes: &[u8]) -> Ends
    ensures { ends_view result ≡ spec.moved from (spec.first_of (to - from) (length bytes.now)) }
{
    if bytes.is_empty() {
        nothing_of(from, to)
    } else {
        Ends {
            start: u64::from(from),
            end: u64::from(from) + bytes.len() as u64,
        }
    }
}

/// The bytes of a number from the start of its interval on.
#[tactic(auto, unfolding(ipg_core::specs::Touch::moved, ipg_core::specs::Touch::first_of))]
fn number_ends(from: u32, to: u32, prim: Primitive) -> Ends
    ensures { ends_view result ≡ spec.moved from (spec.first_of (to - from) (spec.width prim)) }
{
    let wide = prim.width();
    if wide == 0 {
        nothing_of(from, to)
    } else {
        Ends {
            start: u64::from(from),
            end: u64::from(from) + u64::from(wide),
        }
    }
}

/// The ends of a node whose part begins at `from`.
#[tactic(auto, unfolding(ipg_core::specs::Touch::moved))]
fn node_ends(from: u32, head: Head) -> Ends
    ensures { ends_view result ≡ spec.moved from (record { start = head.start; end = head.end }) }
{
    Ends {
        start: u64::from(from) + u64::from(head.start),
        end: u64::from(from) + u64::from(head.end),
    }
}

/// What has no lists within it.
fn leaf(ends: Ends) -> Extent
    ensures { result ≡ record { ends = ends; levels = 0 } }
{
    Extent { ends, levels: 0 }
}

/// The extent of a node whose part begins at `from`.
fn node_extent<A: Allocator + Clone + Drop>(store: &Store<A>, id: RunId, from: u32) -> Extent
    ensures ends { OfTree store.now id (λ one. ends_view result.ends ≡ spec.moved from (spec.tree_ends one)) }
    ensures levels { OfTree store.now id (λ one. tree_levels one ≤ result.levels) }
    ensures small { result.levels < 2 ^ 32 }
{
    let node = node_at(store, id);
    Extent {
        ends: node_ends(from, node.head),
        levels: u64::from(node.levels),
    }
}

/// The extent of a child, but for the items of an array or a repetition.
#[inline(always)]
pub(crate) fn extent_of<A: Allocator + Clone + Drop>(
    store: &Store<A>,
    tables: &Tables,
    kid: Kid,
) -> Extent
    ensures ends { OfKid tables.now store.now kid (λ one. ends_view result.ends ≡ spec.ends_of one) }
    ensures levels { OfKid tables.now store.now kid (λ one. has_items one ≡ false → kid_levels one ≤ result.levels) }
    ensures small { result.levels < 2 ^ 32 }
{
    match kid {
        Kid::Node { id, from, .. } => node_extent(store, id, from),
        Kid::Text { sym, from, to } => leaf(text_ends(from, to, text(tables, sym))),
        Kid::Number { prim, from, to, .. } => leaf(number_ends(from, to, prim)),
        Kid::Raw { from, to } => leaf(Ends {
            start: u64::from(from),
            end: u64::from(to),
        }),
        Kid::Array { .. } => leaf(Ends { start: 0, end: 0 }),
        Kid::Many { .. } => leaf(Ends { start: 0, end: 0 }),
    }
}

/// The ends of a child in its parent's part.
#[inline(always)]
pub fn ends_of<A: Allocator + Clone + Drop>(store: &Store<A>, tables: &Tables, kid: Kid) -> Ends
    ensures { OfKid tables.now store.now kid (λ one. ends_view result ≡ spec.ends_of one) }
{
    extent_of(store, tables, kid).ends
}
