//! Nodes that are stored, read and cut.

use ipg_mach_nodes::{Head, Kid, Node, RunId, Store};
use linked_list_allocator::LocalHeap;
use std::alloc::Allocator;
use std::process::Abort;
use std::test::Fail;

/// A node of two items of raw bytes in an array, and one attribute; and what is left behind a cut.
fn stores_reads_and_cuts<A: Allocator + Clone + Drop>(
    alloc: A,
    rt: &impl Abort,
) -> Result<(), Fail> {
    let mut store = Store::new(alloc)?;
    let before = store.mark();
    let raw = Kid::Raw { from: 0, to: 2 };
    let items = store.add_list(&[raw, raw])?;
    let array = Kid::Array { sym: 5, items };
    let head = Head {
        rule: 3,
        size: 4,
        start: 0,
        end: 2,
    };
    let id = store.add_node(head, 2, &[(7, -1)], &[array])?;
    let Some(node) = store.node(id) else {
        assert!(rt; false, "the node is there");
        return Ok(());
    };
    assert_eq!(rt; node.head, head);
    assert_eq!(rt; node.levels, 2);
    assert!(rt; store.attrs(node.attrs) == [(7, -1)].as_slice());
    assert!(rt; store.kids(node.kids) == [array].as_slice());
    assert!(rt; store.kids(items) == [raw, raw].as_slice());
    store.cut(before);
    assert!(rt; store.node(id).is_none());
    assert!(rt; store.kids(items).is_empty());
    Ok(())
}

#[test]
fn nodes_in_global(rt: HostRuntime) -> Result<(), Fail> {
    stores_reads_and_cuts(rt.alloc(), &rt)
}

#[test]
fn nodes_in_a_heap(rt: HostRuntime) -> Result<(), Fail> {
    let heap = LocalHeap::new(rt.alloc(), 1 << 16)?;
    stores_reads_and_cuts(&heap, &rt)
}
