//! Answers that are remembered, in a heap and in `Global`.

use ipg_memo::{Entry, Key, Memo};
use ipg_region::RunId;
use linked_list_allocator::LocalHeap;
use std::alloc::Allocator;
use std::process::Abort;
use std::test::Fail;

fn puts_and_gets<A: Allocator + Clone + Drop>(alloc: A, rt: &impl Abort) -> Result<(), Fail> {
    let mut memo = Memo::new(alloc);
    let key = Key {
        rule: 0,
        from: 0,
        to: 4,
    };
    memo.put(key, Entry::NoTree)?;
    assert!(rt; memo.get(key) == Some(Entry::NoTree));
    assert!(rt;
        memo.get(Key {
            rule: 0,
            from: 0,
            to: 3
        })
        .is_none()
    );
    assert_eq!(rt; memo.len(), 1);
    memo.clear();
    assert!(rt; memo.get(key).is_none());
    assert_eq!(rt; memo.len(), 0);
    Ok(())
}

#[test]
fn entries_in_global(rt: HostRuntime) -> Result<(), Fail> {
    puts_and_gets(rt.alloc(), &rt)
}

#[test]
fn entries_in_a_heap(rt: HostRuntime) -> Result<(), Fail> {
    let heap = LocalHeap::new(rt.alloc(), 1 << 15)?;
    puts_and_gets(&heap, &rt)
}

#[test]
fn a_full_heap_answers_as_before(rt: HostRuntime) -> Result<(), Fail> {
    let heap = LocalHeap::new(rt.alloc(), 1 << 16)?;
    let mut memo = Memo::new(&heap);
    let mut refused = false;
    for to in 0..8192u32 {
        let key = Key {
            rule: 7,
            from: 0,
            to,
        };
        if memo.get(key).is_none() {
            let node = RunId { place: to };
            refused = memo.put(key, Entry::Node(node)).is_err();
        }
        if refused {
            break;
        }
    }
    assert!(rt; refused);
    let len = memo.len();
    assert!(rt; len > 64);
    for to in 0..8192u32 {
        let found = memo.get(Key {
            rule: 7,
            from: 0,
            to,
        });
        let node = RunId { place: to };
        assert!(rt;
            found
                == if (to as usize) < len {
                    Some(Entry::Node(node))
                } else {
                    None
                }
        );
    }
    Ok(())
}

/// Keys whose numbers agree in their low bits, so that their ways part late.
#[test]
fn keys_that_differ_in_high_bits(rt: HostRuntime) -> Result<(), Fail> {
    let mut memo = Memo::new(rt.alloc());
    for high in 0..4096u32 {
        let key = Key {
            rule: 1,
            from: high * 0x4_0000,
            to: 0x4000_0000 - high * 0x4_0000,
        };
        memo.put(key, Entry::Node(RunId { place: high }))?;
    }
    assert_eq!(rt; memo.len(), 4096);
    for high in 0..4096u32 {
        let found = memo.get(Key {
            rule: 1,
            from: high * 0x4_0000,
            to: 0x4000_0000 - high * 0x4_0000,
        });
        assert_eq!(rt; found, Some(Entry::Node(RunId { place: high })));
    }
    Ok(())
}

/// Three bytes more: an edit puts five in place of two.
#[test]
fn entries_move_with_an_edit(rt: HostRuntime) -> Result<(), Fail> {
    let mut memo = Memo::new(rt.alloc());
    let places = [(1u32, 0u32, 4u32), (1, 4, 10), (2, 8, 12)];
    for (rule, from, to) in places {
        memo.put(Key { rule, from, to }, Entry::Node(RunId { place: from }))?;
    }
    let after = memo.moved(5, 7, 5)?;
    assert_eq!(rt; after.len(), 2);
    for (rule, from, to, place) in [(1u32, 0u32, 4u32, 0u32), (2, 11, 15, 8)] {
        let found = after.get(Key { rule, from, to });
        assert_eq!(rt; found, Some(Entry::Node(RunId { place })));
    }
    Ok(())
}
