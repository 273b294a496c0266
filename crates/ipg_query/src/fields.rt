//! The values of fields.
ghost use Rattle.std.specs.Prelude.{◌≡◌, ◌+◌, ◌<◌, ◌^◌, ℕ, Some, None, pos, bytes_eq, codes, if◌then◌else◌};
ghost use Rattle.ipg_core.specs.Grammar.{Grammar, name_at};
ghost use Rattle.ipg_core.specs.Tree as tree;
ghost use Rattle.ipg_mach_nodes.specs.Stored.{Source, StandsKid};
ghost use Rattle.ipg_table.specs.Rows.{StandFor};
ghost use Rattle.ipg_query.specs.Hits.{Shares};
ghost use Rattle.ipg_query.specs.Picked as picked;
ghost use Rattle.ipg_query.specs.Picked.{found};
ghost use Rattle.ipg_query.specs.Spots.{IsNear};

use crate::ends::ends_of;
use crate::spot::Spot;
use ipg_mach_nodes::Kid;
use ipg_mach_results::number_attr;
use ipg_table::tables::Tables;
use ipg_tree_walk::Parsed;
use std::alloc::Allocator;

/// A place of the input as a value.
fn value_of(at: u32, offset: u64) -> Option<i64>
    ensures { at + offset < 2 ^ 63 → result ≡ Some (pos (at + offset)) }
{
    let place = u64::from(at).saturating_add(offset);
    if place < 1 << 63 {
        Some(place as i64)
    } else {
        None
    }
}

/// The value of an attribute, where it has this name.
fn value_if(tables: &Tables, attr: (u32, i64), name: &[u8]) -> Option<i64>
    ensures { (g : Grammar) → StandFor tables.now g → result ≡ (if bytes_eq (name_at g.names attr.0) name.now then Some attr.1 else None) }
{
    if tables.attr_name(attr.0) == name {
        Some(attr.1)
    } else {
        None
    }
}

/// The value of the attribute of this name.
fn value_named(tables: &Tables, attrs: &[(u32, i64)], name: &[u8]) -> Option<i64>
    ensures { (g : Grammar) → StandFor tables.now g → result ≡ picked.value_named g.names name.now attrs.now }
{
    for attr in attrs {
        let value = value_if(tables, *attr, name);
        if value.is_some() {
            return value;
        }
    }
    None
}

/// An attribute of a row, by its name.
fn attr_named<A: Allocator + Clone + Drop>(p: &Parsed<'_, A>, kid: Kid, name: &[u8]) -> Option<i64>
    ensures { (src : Source) (g : Grammar) (at : ℕ) (one : tree.Kid) → StandFor p.now.parse.tables g → StandsKid src p.now.parse.store at kid one
        → result ≡ picked.attr_named g name.now one }
{
    match kid {
        Kid::Node { id, .. } => value_named(p.tables(), p.attrs(id), name),
        Kid::Number {
            prim,
            high,
            low,
            ..
        } => number_attr(prim, name, high, low),
        Kid::Text { .. } => None,
        Kid::Raw { .. } => None,
        Kid::Array { .. } => None,
        Kid::Many { .. } => None,
    }
}

fn is_start(name: &[u8]) -> bool
    ensures { result ≡ bytes_eq name.now (codes "start") }
{
    name == b"start".as_slice()
}

fn is_end(name: &[u8]) -> bool
    ensures { result ≡ bytes_eq name.now (codes "end") }
{
    name == b"end".as_slice()
}

/// A field of a spot, by its name; None where it has none of that name.
pub fn field_named<A: Allocator + Clone + Drop>(
    p: &Parsed<'_, A>,
    spot: Spot,
    name: &[u8],
) -> Option<i64>
    ensures { (src : Source) (g : Grammar) (one : tree.Kid) → Shares p.now.parse src g → StandsKid src p.now.parse.store spot.at spot.kid one
        → IsNear spot.at one → result ≡ picked.field_named g name.now (found spot.at one) }
{
    if is_start(name) {
        value_of(spot.at, ends_of(p, spot.kid).start)
    } else if is_end(name) {
        value_of(spot.at, ends_of(p, spot.kid).end)
    } else {
        attr_named(p, spot.kid, name)
    }
}
