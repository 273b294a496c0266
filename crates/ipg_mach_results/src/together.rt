//! What the children of a node touch, and how deep they lie.

ghost use Rattle.std.specs.Prelude.{◌≡◌, ◌^◌, ◌<◌, ◌≤◌, max};
ghost use Rattle.ipg_core.specs.Touch as spec;
ghost use Rattle.ipg_core.specs.Tree.{items_of as items_in};
ghost use Rattle.ipg_mach_nodes.specs.Stored.{kid_levels, kids_levels};
ghost use Rattle.ipg_mach_results.specs.Standing.{OfKid, OfKids};
ghost use Rattle.ipg_mach_results.specs.Flat.{AreItems, AreFlat};
ghost use Rattle.ipg_mach_results.specs.Ends.{ends_view};

use crate::ends::{Ends, Extent, extent_of, touches};
use crate::fields::has_items;
use crate::items::items_of;
use ipg_mach_nodes::{Kid, Store};
use ipg_table::tables::Tables;
use std::alloc::Allocator;

/// What two results touch together.
#[tactic(auto, unfolding(ipg_core::specs::Touch::together))]
fn together(a: Ends, b: Ends) -> Ends
    ensures { ends_view result ≡ spec.together (ends_view a) (ends_view b) }
{
    if !touches(a) {
        b
    } else if !touches(b) {
        a
    } else {
        Ends {
            start: a.start.min(b.start),
            end: a.end.max(b.end),
        }
    }
}

/// The extent of two results together.
fn extent_together(a: Extent, b: Extent) -> Extent
    ensures ends { ends_view result.ends ≡ spec.together (ends_view a.ends) (ends_view b.ends) }
    ensures levels { result.levels ≡ max a.levels b.levels }
{
    Extent {
        ends: together(a.ends, b.ends),
        levels: a.levels.max(b.levels),
    }
}

/// The extent of the items of an array or a repetition together, which touch `none` where there are none.
fn items_extent<A: Allocator + Clone + Drop>(
    store: &Store<A>,
    tables: &Tables,
    items: &[Kid],
    none: Ends,
) -> Extent
    ensures ends { OfKids tables.now store.now items.now (λ ones. AreItems ones → ends_view result.ends ≡ spec.kids_touch ones (ends_view none)) }
    ensures levels { OfKids tables.now store.now items.now (λ ones. AreItems ones → kids_levels ones ≤ result.levels) }
    ensures small { result.levels < 2 ^ 32 }
{
    let mut extent = Extent {
        ends: none,
        levels: 0,
    };
    for at in (0..items.len()).rev() {
        extent = extent_together(extent_of(store, tables, items[at]), extent);
    }
    extent
}

/// The extent of a child, whose items touch `none` where it has none.
fn kid_extent<A: Allocator + Clone + Drop>(
    store: &Store<A>,
    tables: &Tables,
    kid: Kid,
    none: Ends,
) -> Extent
    ensures ends { OfKid tables.now store.now kid (λ one. AreItems (items_in one) → ends_view result.ends ≡ spec.kid_touches one (ends_view none)) }
    ensures levels { OfKid tables.now store.now kid (λ one. AreItems (items_in one) → kid_levels one ≤ result.levels) }
    ensures small { result.levels ≤ 2 ^ 32 }
{
    if has_items(kid) {
        let items = items_extent(store, tables, items_of(store, kid), none);
        Extent {
            ends: items.ends,
            levels: items.levels + 1,
        }
    } else {
        extent_of(store, tables, kid)
    }
}

/// The extent of the children of a node together, in a part of so many bytes, where no item is an array or a repetition.
pub fn extent<A: Allocator + Clone + Drop>(
    store: &Store<A>,
    tables: &Tables,
    kids: &[Kid],
    size: u32,
) -> Extent
    ensures ends { OfKids tables.now store.now kids.now (λ ones. AreFlat ones → ends_view result.ends ≡ spec.kids_touch ones (spec.untouched size)) }
    ensures levels { OfKids tables.now store.now kids.now (λ ones. AreFlat ones → kids_levels ones ≤ result.levels) }
    ensures small { result.levels ≤ 2 ^ 32 }
{
    let none = Ends {
        start: u64::from(size),
        end: 0,
    };
    let mut extent = Extent {
        ends: none,
        levels: 0,
    };
    for at in (0..kids.len()).rev() {
        extent = extent_together(kid_extent(store, tables, kids[at], none), extent);
    }
    extent
}
