//! The fields of stored children.

ghost use Rattle.std.specs.Prelude.{◌≡◌, ℕ, ◌<◌, ◌^◌, Some, pos};
ghost use Rattle.ipg_core.specs.Environment as spec;
ghost use Rattle.ipg_core.specs.Grammar.{Grammar};
ghost use Rattle.ipg_core.specs.Tree as tree;
ghost use Rattle.ipg_mach_nodes.specs.Stored.{Stored, Source, StandsKid};
ghost use Rattle.ipg_table.specs.Rows.{StandFor};
ghost use Rattle.ipg_mach_results.specs.Standing.{OfKid};
ghost use Rattle.ipg_mach_results.specs.Flat as flat;
ghost use Rattle.ipg_mach_results.specs.Ends.{IsShort};
ghost use Rattle.ipg_mach_results.specs.Reads.{any_field};

use crate::attrs::attr;
use crate::ends::ends_of;
use ipg_core::grammar::{CoreField, Primitive};
use ipg_mach_nodes::{Kid, Store};
use ipg_table::tables::Tables;
use std::alloc::Allocator;

/// A place as a number of an expression.
pub(crate) fn signed(place: u64) -> Option<i64>
    ensures { place < 2 ^ 63 → result ≡ Some (pos place) }
{
    if place < 1 << 63 {
        Some(place as i64)
    } else {
        None
    }
}

/// Whether it is an array or a repetition.
pub(crate) fn has_items(kid: Kid) -> bool
    ensures { (src : Source) → (st : Stored) → (at : ℕ) → (one : tree.Kid) → StandsKid src st at kid one → result ≡ flat.has_items one }
{
    matches!(kid, Kid::Array { .. } | Kid::Many { .. })
}

/// An attribute of a number by its name: `val` of one of up to 32 bits, which `low` holds, or `lo` and `hi`, the halves of
/// one of 64. None where it has no attribute of that name.
pub fn number_attr(prim: Primitive, name: &[u8], high: u32, low: u32) -> Option<i64>
    ensures { result ≡ spec.number_attr prim name.now high low }
{
    match prim {
        Primitive::U64LE | Primitive::U64BE => half_of(name, high, low),
        Primitive::Bytes => None,
        _ => whole_of(name, low),
    }
}

fn half_of(name: &[u8], high: u32, low: u32) -> Option<i64>
    ensures { result ≡ spec.half_of name.now high low }
{
    if name == b"hi".as_slice() {
        Some(i64::from(high))
    } else if name == b"lo".as_slice() {
        Some(i64::from(low))
    } else {
        None
    }
}

fn whole_of(name: &[u8], low: u32) -> Option<i64>
    ensures { result ≡ spec.whole_of name.now low }
{
    if name == b"val".as_slice() {
        Some(i64::from(low))
    } else {
        None
    }
}

/// An attribute of what was parsed, by its number.
fn attr_of<A: Allocator + Clone + Drop>(
    store: &Store<A>,
    tables: &Tables,
    name: u32,
    kid: Kid,
) -> Option<i64>
    ensures { (g : Grammar) → StandFor tables.now g → OfKid tables.now store.now kid (λ one. result ≡ spec.attr_of g.names name one) }
{
    match kid {
        Kid::Node { id, .. } => attr(store, id, name),
        Kid::Number {
            prim,
            high,
            low,
            ..
        } => number_attr(prim, tables.attr_name(name), high, low),
        Kid::Text { .. } => None,
        Kid::Raw { .. } => None,
        Kid::Array { .. } => None,
        Kid::Many { .. } => None,
    }
}

/// A field of what is no array and no repetition.
fn one_field<A: Allocator + Clone + Drop>(
    store: &Store<A>,
    tables: &Tables,
    field: CoreField,
    kid: Kid,
) -> Option<i64>
    ensures { (g : Grammar) → StandFor tables.now g → OfKid tables.now store.now kid (λ one. IsShort one → result ≡ any_field g.names field one) }
{
    match field {
        CoreField::Attr(name) => attr_of(store, tables, name, kid),
        CoreField::Start => signed(ends_of(store, tables, kid).start),
        CoreField::End => signed(ends_of(store, tables, kid).end),
    }
}

/// A field of what was parsed; an array and a repetition have none.
pub fn field_of<A: Allocator + Clone + Drop>(
    store: &Store<A>,
    tables: &Tables,
    field: CoreField,
    kid: Kid,
) -> Option<i64>
    ensures { (g : Grammar) → StandFor tables.now g → OfKid tables.now store.now kid (λ one. IsShort one → result ≡ spec.field_of g.names field one) }
{
    if has_items(kid) {
        None
    } else {
        one_field(store, tables, field, kid)
    }
}
