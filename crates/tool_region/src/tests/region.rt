//! Runs of items, cells and stacks, in a heap and in `Global`.

use ipg_region::{Cells, Region, RunId, Stack};
use linked_list_allocator::LocalHeap;
use std::alloc::Allocator;
use std::process::Abort;
use std::test::Fail;

fn places_reads_and_cuts<A: Allocator + Clone + Drop>(
    alloc: A,
    rt: &impl Abort,
) -> Result<(), Fail> {
    let mut region = Region::new(alloc, 8)?;
    let first = region.place(&[1u8, 2])?;
    assert_eq!(rt; first.place, 0);
    assert_eq!(rt; region.mark().place, 1);
    let second = region.place(&[3])?;
    assert_eq!(rt; second.place, 1);
    region.cut(second);
    assert_eq!(rt; region.mark().place, 1);
    assert!(rt; region.get(first) == Some([1, 2].as_slice()));
    region.reserve(1, 4)?;
    let again = region.place_spare(&[4, 5, 6, 7]);
    assert!(rt; region.get(again) == Some([4, 5, 6, 7].as_slice()));
    Ok(())
}

#[test]
fn runs_in_global(rt: HostRuntime) -> Result<(), Fail> {
    places_reads_and_cuts(rt.alloc(), &rt)
}

#[test]
fn runs_in_a_heap(rt: HostRuntime) -> Result<(), Fail> {
    let heap = LocalHeap::new(rt.alloc(), 4096)?;
    places_reads_and_cuts(&heap, &rt)
}

#[test]
fn a_full_heap_reads_as_before(rt: HostRuntime) -> Result<(), Fail> {
    let heap = LocalHeap::new(rt.alloc(), 1 << 16)?;
    let mut region = Region::new(&heap, 64)?;
    let mut refused = false;
    for i in 0..4096u64 {
        refused = region.place(&[i, 2 * i, 3 * i, 4 * i]).is_err();
        if refused {
            break;
        }
    }
    assert!(rt; refused);
    let runs = region.mark().place;
    assert!(rt; runs > 64);
    for place in 0..runs {
        let i = u64::from(place);
        assert!(rt; i < 4096);
        assert!(rt; region.get(RunId { place }) == Some([i, 2 * i, 3 * i, 4 * i].as_slice()));
    }
    Ok(())
}

#[test]
fn reads_and_cuts_over_blocks(rt: HostRuntime) -> Result<(), Fail> {
    let heap = LocalHeap::new(rt.alloc(), 1 << 16)?;
    let mut region = Region::new(&heap, 4)?;
    for i in 0..100u64 {
        region.place(&[i, 2 * i])?;
    }
    let used = heap.used();
    let runs = region.mark().place;
    assert_eq!(rt; runs, 100);
    assert!(rt; region.get(RunId { place: 1 }) == Some([1, 2].as_slice()));
    assert!(rt; region.get(RunId { place: 50 }) == Some([50, 100].as_slice()));
    assert!(rt; region.get(RunId { place: 99 }) == Some([99, 198].as_slice()));
    region.cut(RunId { place: 3 });
    assert!(rt; heap.used() < used);
    let next = region.place(&[7])?;
    assert_eq!(rt; next.place, 3);
    assert!(rt; region.get(next) == Some([7].as_slice()));
    assert!(rt; region.get(RunId { place: 2 }) == Some([2, 4].as_slice()));
    Ok(())
}

#[test]
fn cells_over_chunks(rt: HostRuntime) -> Result<(), Fail> {
    let heap = LocalHeap::new(rt.alloc(), 1 << 19)?;
    let mut cells = Cells::new(&heap)?;
    for i in 0..20000u64 {
        cells.reserve()?;
        assert_eq!(rt; cells.place_spare(i).place as u64, i);
    }
    let used = heap.used();
    for place in 0..20000u32 {
        assert_eq!(rt; cells.get(RunId { place }), Some(u64::from(place)));
    }
    assert_eq!(rt; cells.get(RunId { place: 20000 }), None);
    cells.cut(RunId { place: 10000 });
    assert!(rt; heap.used() < used);
    assert_eq!(rt; cells.mark().place, 10000);
    assert_eq!(rt; cells.get(RunId { place: 9999 }), Some(9999));
    assert_eq!(rt; cells.get(RunId { place: 10000 }), None);
    Ok(())
}

#[test]
fn stacks_over_blocks(rt: HostRuntime) -> Result<(), Fail> {
    let heap = LocalHeap::new(rt.alloc(), 1 << 16)?;
    let mut stack = Stack::new(&heap)?;
    assert!(rt; stack.is_empty());
    for i in 0..1000u64 {
        stack.push(&i)?;
    }
    assert_eq!(rt; stack.len(), 1000);
    let mut last = 0;
    for i in 0..1000u64 {
        stack.pop_into(&mut last);
        assert_eq!(rt; last, 999 - i);
    }
    assert!(rt; stack.is_empty());
    stack.pop_into(&mut last);
    assert_eq!(rt; last, 0);
    Ok(())
}
