//! Operators at their limits, lists and boxes.

use ipg_num::{Answer, Held, List, Op2, apply, item_at, negate};
use std::test::Fail;

#[test]
fn operators_hold_to_their_limits(rt: HostRuntime) {
    assert_eq!(rt; apply(Op2::Add, i64::MAX, 1), Answer::Range);
    assert_eq!(rt; apply(Op2::Div, -7, 2), Answer::Val(-4));
    assert_eq!(rt; apply(Op2::Mod, -7, 2), Answer::Val(1));
    assert_eq!(rt; apply(Op2::Div, 1, 0), Answer::Fail);
    assert_eq!(rt; apply(Op2::Shl, 1, 64), Answer::Fail);
    assert_eq!(rt; apply(Op2::Shl, 1, 63), Answer::Range);
    assert_eq!(rt; negate(i64::MIN), Answer::Range);
}

#[test]
fn bits_are_binary_digits(rt: HostRuntime) {
    assert_eq!(rt; apply(Op2::BitAnd, 12, 10), Answer::Val(8));
    assert_eq!(rt; apply(Op2::BitOr, 12, 10), Answer::Val(14));
    assert_eq!(rt; apply(Op2::BitXor, 12, 10), Answer::Val(6));
    assert_eq!(rt; apply(Op2::BitOr, -1, 0), Answer::Fail);
    assert_eq!(rt; apply(Op2::Shr, 255, 4), Answer::Val(15));
}

#[test]
fn a_list_keeps_its_items(rt: HostRuntime) -> Result<(), Fail> {
    let mut items = List::new(rt.alloc());
    items.push(3u8)?;
    items.push(4u8)?;
    assert_eq!(rt; items.len(), 2);
    assert_eq!(rt; item_at(items.as_slice(), 1).copied(), Some(4));
    assert_eq!(rt; item_at(items.as_slice(), 2).copied(), None);
    let items = List::from_vec(items.into_vec());
    assert_eq!(rt; items.as_slice(), [3u8, 4].as_slice());
    Ok(())
}

#[test]
fn a_box_gives_its_value_back(rt: HostRuntime) -> Result<(), Fail> {
    let held = Held::new(rt.alloc(), 7u32)?;
    assert_eq!(rt; *held.get(), 7);
    assert_eq!(rt; held.into_inner(), 7);
    Ok(())
}
