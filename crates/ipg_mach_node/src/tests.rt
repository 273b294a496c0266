use crate::scratch::{put_attrs, put_kids};
use crate::{Several, past_items};
use ipg_mach_nodes::{Head, Kid, Store};
use ipg_mach_slot::Done;
use std::test::Fail;

/// The rows of a node over raw bytes, a switch that took a node, and a repetition of that node; the attribute 4, set
/// last, and 9, which has no value.
#[test]
fn rows_of_a_node(rt: HostRuntime) -> Result<(), Fail> {
    let mut store = Store::new(rt.alloc())?;
    let head = Head {
        rule: 1,
        size: 2,
        start: 0,
        end: 1,
    };
    let raw = Kid::Raw { from: 0, to: 1 };
    let id = store.add_node(head, 3, &[], &[raw])?;
    let node = Kid::Node { id, from: 2, to: 4 };
    let taken = Done {
        is_switch: true,
        kid: node,
    };
    let first = Done {
        is_switch: false,
        kid: raw,
    };
    let many = past_items(&mut store, Several::Repetition, 5, &[node, node])?;
    assert!(rt; matches!(many.kid, Kid::Many { sym: 5, .. }));
    let mut kids = Vec::new(rt.alloc());
    put_kids(
        &mut kids,
        &[None, Some(first), Some(taken), None, Some(many)],
    )?;
    assert!(rt; kids.as_slice() == [raw, node, many.kid].as_slice());
    let mut attrs = Vec::new(rt.alloc());
    put_attrs(&mut attrs, &[4, 9, 7], &[(7, -1), (4, 6)])?;
    assert!(rt; attrs.as_slice() == [(4, 6), (7, -1)].as_slice());
    let empty = past_items(&mut store, Several::Array, 5, &[])?;
    assert!(rt; !empty.is_switch);
    Ok(())
}
