//! The heads and the attributes of nodes.

ghost use Rattle.std.specs.Prelude.{◌≡◌, ◌≤◌};
ghost use Rattle.ipg_core.specs.Environment as spec;
ghost use Rattle.ipg_core.specs.Tree.{attrs_of};
ghost use Rattle.ipg_mach_nodes.specs.Stored.{tree_levels};
ghost use Rattle.ipg_mach_results.specs.Standing.{OfTree, IsHead};

use ipg_mach_nodes::{Head, Node, RunId, Store};
use std::alloc::Allocator;

/// The value of an attribute, by its first entry; None where there is none.
pub fn value_at(attrs: &[(u32, i64)], attr: u32) -> Option<i64>
    ensures { result ≡ spec.value_at attrs.now attr }
{
    for entry in attrs {
        if entry.0 == attr {
            return Some(entry.1);
        }
    }
    None
}

/// An attribute of a node; None where it has none of that number.
pub fn attr<A: Allocator + Clone + Drop>(store: &Store<A>, id: RunId, name: u32) -> Option<i64>
    ensures { OfTree store.now id (λ one. result ≡ spec.value_at (attrs_of one) name) }
{
    match store.node(id) {
        Some(node) => value_at(store.attrs(node.attrs), name),
        None => None,
    }
}

/// The node at a place; all 0 where there is none.
pub(crate) fn node_at<A: Allocator + Clone + Drop>(store: &Store<A>, id: RunId) -> Node
    ensures head { OfTree store.now id (λ one. IsHead result.head one) }
    ensures levels { OfTree store.now id (λ one. tree_levels one ≤ result.levels) }
{
    match store.node(id) {
        Some(node) => node,
        None => Node {
            head: Head {
                rule: 0,
                size: 0,
                start: 0,
                end: 0,
            },
            levels: 0,
            attrs: RunId { place: 0 },
            kids: RunId { place: 0 },
        },
    }
}

/// The head of a node; all 0 where there is none.
pub(crate) fn head<A: Allocator + Clone + Drop>(store: &Store<A>, id: RunId) -> Head
    ensures { OfTree store.now id (λ one. IsHead result one) }
{
    node_at(store, id).head
}
