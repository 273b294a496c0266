//! Places runs and puts entries, and says how many, and how many bytes of a heap they take: `tool_region region|memo global|heap COUNT`.
//! Or puts, gets and moves entries whose keys share heads, as a seed says, and sums up what it got: `tool_region maps SEED COUNT`.
#![tactic(auto)]

mod draw;
#[cfg(test)]
mod tests;

use crate::draw::Draw;
use anyhow::{Result, bail};
use ipg_memo::{Entry, Key, Memo};
use ipg_region::{Region, RunId};
use linked_list_allocator::LocalHeap;
use std::alloc::{AllocError, Allocator};
use std::env;

const HEAP: usize = 512 << 20;

fn filled_region<A: Allocator + Clone + Drop>(
    alloc: A,
    count: u32,
) -> std::result::Result<Region<u64, A>, AllocError> {
    let mut region = Region::new(alloc, 65536)?;
    for i in 0..count {
        let word = u64::from(i);
        region.place(&[word, word ^ 1, word ^ 2, word ^ 3])?;
    }
    Ok(region)
}

fn key_of(i: u32) -> Key {
    Key {
        rule: i % 61,
        from: i / 61,
        to: i,
    }
}

fn filled_memo<A: Allocator + Clone + Drop>(
    alloc: A,
    count: u32,
) -> std::result::Result<Memo<A>, AllocError> {
    let mut memo = Memo::new(alloc);
    for i in 0..count {
        let key = key_of(i);
        if memo.get(key).is_none() {
            memo.put(key, Entry::Node(RunId { place: i }))?;
        }
    }
    Ok(memo)
}

fn found_in<A: Allocator + Clone + Drop>(memo: &Memo<A>, count: u32) -> usize {
    (0..count)
        .filter(|i| memo.get(key_of(*i)).is_some())
        .count()
}

/// What a look at a memo came to, as a number.
fn code_of(found: Option<Entry>) -> u64 {
    match found {
        None => 1,
        Some(Entry::NoTree) => 2,
        Some(Entry::Node(id)) => u64::from(id.place) + 3,
    }
}

/// So many puts and gets, with an edit now and then: how many entries are left, and what was got.
fn tried_maps<A: Allocator + Clone + Drop>(
    alloc: A,
    seed: u64,
    count: u32,
) -> std::result::Result<(usize, u64), AllocError> {
    let mut memo = Memo::new(alloc);
    let mut draw = Draw::new(seed);
    let mut sum: u64 = 0;
    for i in 0..count {
        let key = draw.key();
        if i % 200_000 == 199_999 {
            memo = memo.moved(1 << 27, (1 << 27) + 64, 4160)?;
        }
        match draw.next() % 4 {
            0 => memo.put(key, Entry::NoTree)?,
            1 => memo.put(key, Entry::Node(RunId { place: i }))?,
            _ => sum = sum.wrapping_mul(31).wrapping_add(code_of(memo.get(key))),
        }
    }
    Ok((memo.len(), sum))
}

fn run(rt: &HostRuntime, what: &str, place: &str, count: u32) -> Result<()> {
    match (what, place) {
        ("region", "global") => {
            let region = filled_region(rt.alloc(), count)?;
            println!(rt; "runs {}", region.mark().place)?;
        }
        ("region", "heap") => {
            let heap = LocalHeap::new(rt.alloc(), HEAP)?;
            let region = filled_region(&heap, count)?;
            println!(rt; "runs {} bytes {}", region.mark().place, heap.used())?;
        }
        ("memo", "global") => {
            let memo = filled_memo(rt.alloc(), count)?;
            println!(rt; "entries {} found {}", memo.len(), found_in(&memo, count))?;
        }
        ("memo", "heap") => {
            let heap = LocalHeap::new(rt.alloc(), HEAP)?;
            let memo = filled_memo(&heap, count)?;
            let found = found_in(&memo, count);
            println!(rt;
                "entries {} found {found} bytes {}",
                memo.len(),
                heap.used()
            )?;
        }
        _ => bail!("region or memo, and then global or heap"),
    }
    Ok(())
}

fn main(rt: HostRuntime) -> Result<()> {
    let args: Vec<String> = env::args(&rt)?.collect(rt.alloc())?;
    match args.as_slice() {
        [_, what, seed, count] if what.as_str() == "maps" => {
            let seed = seed.parse::<u64>()?;
            let (entries, sum) = tried_maps(rt.alloc(), seed, count.parse::<u32>()?)?;
            println!(&rt; "entries {entries} sum {sum}")?;
            Ok(())
        }
        [_, what, place, count] => run(&rt, what, place, count.parse::<u32>()?),
        _ => {
            run(&rt, "region", "global", 1000)?;
            run(&rt, "memo", "global", 1000)
        }
    }
}
