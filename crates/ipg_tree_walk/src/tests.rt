use crate::stack::LevelStack;
use crate::walk::{Visit, enter, root_visit, step};
use ipg_mach_nodes::{Head, Kid, Node, RunId, Store};
use linked_list_allocator::LocalHeap;
use std::alloc::{AllocError, Allocator};
use std::process::Abort;
use std::test::Fail;

/// A node of three raw bytes.
fn leaf<A: Allocator + Clone + Drop>(store: &mut Store<A>) -> Result<RunId, AllocError> {
    let head = Head {
        rule: 2,
        size: 3,
        start: 0,
        end: 3,
    };
    store.add_node(head, 1, &[], &[Kid::Raw { from: 0, to: 3 }])
}

/// A node of a terminal of one byte and an array of two items, which are one node.
fn root<A: Allocator + Clone + Drop>(
    store: &mut Store<A>,
    id: RunId,
    levels: u32,
) -> Result<RunId, AllocError> {
    let first = Kid::Node { id, from: 1, to: 4 };
    let second = Kid::Node { id, from: 4, to: 7 };
    let items = store.add_list(&[first, second])?;
    let text = Kid::Text {
        sym: 5,
        from: 0,
        to: 1,
    };
    let array = Kid::Array { sym: 6, items };
    let head = Head {
        rule: 1,
        size: 7,
        start: 0,
        end: 7,
    };
    store.add_node(head, levels, &[(3, -1)], &[text, array])
}

fn at(depth: u64, from: u64, to: u64, kid: Kid, node: Option<Node>) -> Option<Visit> {
    Some(Visit {
        depth,
        from,
        to,
        kid,
        node,
    })
}

/// The visits of `root`, as they are counted by hand.
fn visits_in_order<A: Allocator + Clone + Drop>(
    alloc: A,
    again: A,
    rt: &impl Abort,
) -> Result<(), Fail> {
    let mut store = Store::new(alloc)?;
    let id = leaf(&mut store)?;
    let top = root(&mut store, id, 3)?;
    let mut stack = LevelStack::with_room(again, 3)?;
    let node = store.node(id);
    let first = root_visit(top, store.node(top));
    enter(&mut stack, first.kid, first.node, 0, 0);
    assert_eq!(rt;
        Some(first),
        at(
            0,
            0,
            7,
            Kid::Node {
                id: top,
                from: 0,
                to: 7
            },
            store.node(top)
        )
    );
    assert_eq!(rt;
        step(&store, &mut stack),
        at(
            1,
            0,
            1,
            Kid::Text {
                sym: 5,
                from: 0,
                to: 1
            },
            None
        )
    );
    let array = step(&store, &mut stack);
    assert!(rt;
        matches!(
            array,
            Some(Visit {
                depth: 1,
                from: 0,
                to: 7,
                kid: Kid::Array { sym: 6, .. },
                node: None
            })
        )
    );
    assert_eq!(rt;
        step(&store, &mut stack),
        at(2, 1, 4, Kid::Node { id, from: 1, to: 4 }, node)
    );
    assert_eq!(rt;
        step(&store, &mut stack),
        at(3, 1, 4, Kid::Raw { from: 0, to: 3 }, None)
    );
    assert_eq!(rt;
        step(&store, &mut stack),
        at(2, 4, 7, Kid::Node { id, from: 4, to: 7 }, node)
    );
    assert_eq!(rt;
        step(&store, &mut stack),
        at(3, 4, 7, Kid::Raw { from: 0, to: 3 }, None)
    );
    assert_eq!(rt; step(&store, &mut stack), None);
    assert_eq!(rt; step(&store, &mut stack), None);
    Ok(())
}

#[test]
fn visits_in_global(rt: HostRuntime) -> Result<(), Fail> {
    visits_in_order(rt.alloc(), rt.alloc(), &rt)
}

#[test]
fn visits_in_a_heap(rt: HostRuntime) -> Result<(), Fail> {
    let heap = LocalHeap::new(rt.alloc(), 1 << 18)?;
    visits_in_order(&heap, &heap, &rt)
}
