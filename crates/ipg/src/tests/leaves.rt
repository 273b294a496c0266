//! Leaves worked by hand, and what they are put back to.
use ipg_core::grammar::{Name, Primitive};
use ipg_cover_leaves::{Leaf, PutFault, put_back};
use ipg_num::List;
use std::alloc::{AllocError, Global};
use std::test::Fail;

fn name(alloc: Global, bytes: &[u8]) -> Result<Name, AllocError> {
    Ok(List::from_vec(Vec::from_slice(alloc, bytes)?))
}

fn text(alloc: Global, from: u32, bytes: &[u8]) -> Result<Leaf, AllocError> {
    Ok(Leaf::Text {
        from,
        bytes: name(alloc, bytes)?,
    })
}

fn number(prim: Primitive, high: i64, low: i64) -> Leaf {
    Leaf::Number {
        prim,
        from: 0,
        high,
        low,
    }
}

/// The bytes, or the fault, that is due.
fn is_put(alloc: Global, leaves: &[Leaf], len: u32, due: Result<&[u8], PutFault>) -> bool {
    match (put_back(alloc, leaves, len), due) {
        (Ok(bytes), Ok(due)) => bytes.as_slice() == due,
        (Err(fault), Err(due)) => fault == due,
        _ => false,
    }
}

#[test]
fn puts_bytes(rt: HostRuntime) -> Result<(), Fail> {
    let alloc = rt.alloc();
    assert!(rt; is_put(alloc, &[], 0, Ok(b"")));
    assert!(rt;
        is_put(
            alloc,
            &[number(Primitive::U16BE, 0, 258)],
            2,
            Ok(b"\x01\x02")
        )
    );
    let over = [text(alloc, 0, b"abc")?, text(alloc, 1, b"bc")?];
    assert!(rt; is_put(alloc, &over, 3, Ok(b"abc")));
    let empty = [text(alloc, 9, b"")?, text(alloc, 0, b"a")?];
    assert!(rt; is_put(alloc, &empty, 1, Ok(b"a")));
    Ok(())
}

#[test]
fn tells_faults(rt: HostRuntime) -> Result<(), Fail> {
    let alloc = rt.alloc();
    let clash = [text(alloc, 0, b"ab")?, text(alloc, 1, b"xc")?];
    assert!(rt; is_put(alloc, &clash, 3, Err(PutFault::Clash { at: 1 })));
    let large = [number(Primitive::U8, 0, 256)];
    assert!(rt; is_put(alloc, &large, 1, Err(PutFault::Value { leaf: 0 })));
    let high = [text(alloc, 0, b"a")?, number(Primitive::U32LE, 1, 0)];
    assert!(rt; is_put(alloc, &high, 4, Err(PutFault::Value { leaf: 1 })));
    let long = [text(alloc, 0, b"ab")?];
    assert!(rt; is_put(alloc, &long, 1, Err(PutFault::Outside { leaf: 0 })));
    assert!(rt; is_put(alloc, &long, 3, Err(PutFault::Gap { at: 2 })));
    Ok(())
}

/// So many leaves at one place take no more than their bytes.
#[test]
fn puts_many_at_one_place(rt: HostRuntime) -> Result<(), Fail> {
    let alloc = rt.alloc();
    let mut leaves = Vec::with_capacity(alloc, 1 << 20)?;
    for _ in 0..1 << 20 {
        leaves.push(number(Primitive::U8, 0, 7))?;
    }
    assert!(rt; is_put(alloc, &leaves, 1, Ok(b"\x07")));
    Ok(())
}
