//! The items of stored arrays and repetitions.

ghost use Rattle.std.specs.Prelude.{◌≡◌, ℕ, pos, option_map};
ghost use Rattle.ipg_core.specs.Environment as environment;
ghost use Rattle.ipg_core.specs.Eval as spec;
ghost use Rattle.ipg_core.specs.Grammar.{Grammar};
ghost use Rattle.ipg_core.specs.Tree as tree;
ghost use Rattle.ipg_mach_nodes.specs.Stored.{Source, StandsKid, StandKids};
ghost use Rattle.ipg_table.specs.Rows.{StandFor};
ghost use Rattle.ipg_mach_results.specs.Standing.{OfKid, OfKids};
ghost use Rattle.ipg_mach_results.specs.Flat as flat;
ghost use Rattle.ipg_mach_results.specs.Ends.{ends_view, AreShort};
ghost use Rattle.ipg_mach_results.specs.Reads as reads;

use crate::ends::{Ends, ends_of, touches};
use crate::fields::{field_of, signed};
use ipg_core::grammar::CoreField;
use ipg_mach_nodes::{Kid, Store};
use ipg_table::tables::Tables;
use std::alloc::Allocator;

/// The items of an array or a repetition; none of what is neither.
pub fn items_of<A: Allocator + Clone + Drop>(store: &Store<A>, kid: Kid) -> &[Kid]
    ensures { (src : Source) → (at : ℕ) → (one : tree.Kid) → StandsKid src store.now at kid one → StandKids src store.now at result.now (tree.items_of one) }
{
    match kid {
        Kid::Array { items, .. } => store.kids(items),
        Kid::Many { items, .. } => store.kids(items),
        Kid::Node { .. } => &[],
        Kid::Text { .. } => &[],
        Kid::Number { .. } => &[],
        Kid::Raw { .. } => &[],
    }
}

/// The item at an index, which is none at a negative one.
fn row_at(items: &[Kid], index: i64) -> Option<Kid>
    ensures { result ≡ reads.row_at items.now index }
{
    if index < 0 {
        return None;
    }
    items.get(index as usize).copied()
}

/// A field of an item of an array or a repetition; None where there is no such item.
pub fn item_field<A: Allocator + Clone + Drop>(
    store: &Store<A>,
    tables: &Tables,
    items: &[Kid],
    index: i64,
    field: CoreField,
) -> Option<i64>
    ensures { (g : Grammar) → StandFor tables.now g
        → OfKids tables.now store.now items.now (λ ones. AreShort ones → result ≡ environment.field_of_item g.names field (spec.item_at ones index)) }
{
    match row_at(items, index) {
        Some(kid) => field_of(store, tables, field, kid),
        None => None,
    }
}

/// The greater of the ends so far and those of one more, where that touches.
fn later(ends: Ends, greatest: Option<u64>) -> Option<u64>
    ensures { result ≡ spec.later (ends_view ends) greatest }
{
    match greatest {
        None => { if touches(ends) { Some(ends.end) } else { None } }
        Some(end) => {
            if touches(ends) {
                Some(ends.end.max(end))
            } else {
                Some(end)
            }
        }
    }
}

/// The greatest end of the items that touch a byte.
fn last_end<A: Allocator + Clone + Drop>(
    store: &Store<A>,
    tables: &Tables,
    items: &[Kid],
) -> Option<u64>
    ensures { OfKids tables.now store.now items.now (λ ones. result ≡ spec.greatest_end ones) }
{
    let mut greatest = None;
    for at in (0..items.len()).rev() {
        greatest = later(ends_of(store, tables, items[at]), greatest);
    }
    greatest
}

/// The greatest end of the items that touch a byte, as a number of an expression; None where none touches.
pub fn greatest_end<A: Allocator + Clone + Drop>(
    store: &Store<A>,
    tables: &Tables,
    items: &[Kid],
) -> Option<i64>
    ensures { OfKids tables.now store.now items.now (λ ones. AreShort ones → result ≡ option_map pos (spec.greatest_end ones)) }
{
    match last_end(store, tables, items) {
        Some(end) => signed(end),
        None => None,
    }
}
