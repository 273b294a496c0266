ghost use Rattle.std.specs.Prelude.{◌≡◌, ◌+◌, ◌-◌, ◌^◌, ◌++◌, ◌∷◌, [], ◌<◌, ◌≤◌, length, take, drop, slice_get, Some, IsOk, IfOk, OnOk, OnErr};
ghost use Rattle.std.specs.Prelude.{MatchOption, vec_len, vec_capacity};
ghost use Rattle.ipg_region.specs.Pieces.{pieces, Rises, end_before, empty_for};

use std::alloc::{AllocError, Allocator};
use std::marker::Model;

/// As many items lie in a block at most: each end is a place of 32 bits.
const MOST_ITEMS: usize = u32::MAX as usize;

/// More items count as want of memory.
const TOO_MANY_ITEMS: AllocError = AllocError;

/// Runs that lie one after another. The items never move: where their room ends, a block is full.
#[derive(Drop)]
pub(crate) struct Block<T, A: Allocator> {
    items: Vec<T, A>,
    ends: Vec<u32, A>,
}

impl<T, A: Allocator> Model for Block<T, A> {
    ghost use Rattle.ipg_region.specs.Held.{Held};

    ghost Value = { Held T };

    ghost use Rattle.ipg_region.specs.Pieces.{held_in, IsSound};

    ghost view = { λ a. held_in a };

    ghost invariant = { λ a. IsSound a };
}

/// Where the run at this place begins among the items, or where the last run ends.
fn start_of(ends: &[u32], place: usize) -> usize
    requires { place ≤ length ends.now }
    ensures { result ≡ end_before 0 ends.now place }
{
    if place == 0 {
        0
    } else {
        ends[place - 1] as usize
    }
}

fn between<T>(items: &[T], from: usize, to: usize) -> &[T]
    requires ordered { from ≤ to }
    requires within { to ≤ length items.now }
    ensures { result.now ≡ take (to - from) (drop from items.now) }
{
    &items[from..to]
}

/// The run at this place among the items.
fn run_at<'a, T>(items: &'a [T], ends: &[u32], place: usize) -> &'a [T]
    requires rises { Rises 0 ends.now (length items.now) }
    requires within { place < length ends.now }
    ensures { slice_get (pieces items.now 0 ends.now) place ≡ Some result.now }
{
    between(items, start_of(ends, place), ends[place] as usize)
}

/// Puts items at the end, where there is room for them. Most runs have one, which takes no call.
#[inline(always)]
fn put<T: Copy, A: Allocator + Clone + Drop>(items: &mut Vec<T, A>, run: &[T])
    requires { vec_len items.old + length run.now ≤ vec_capacity items.old }
    ensures items { items.new.items ≡ items.old.items ++ run.now }
    ensures capacity { vec_capacity items.old ≤ vec_capacity items.new }
{
    match run {
        [] => {}
        [item] => items.push_reserved(*item),
        _ => items.extend_from_slice(run).unwrap(),
    }
}

impl<T: Copy, A: Allocator + Clone + Drop> Block<T, A> {
    /// A block without runs, with room for so many runs and so many items in all.
    pub(crate) fn with_room(alloc: A, runs: usize, items: usize) -> Result<Block<T, A>, AllocError>
        ensures { IfOk result (λ block. block ≡ empty_for runs items) }
    {
        if items > MOST_ITEMS {
            return Err(TOO_MANY_ITEMS);
        }
        let again = alloc.clone()?;
        Ok(Block {
            items: Vec::with_capacity(alloc, items)?,
            ends: Vec::with_capacity(again, runs)?,
        })
    }

    /// How many runs it holds.
    pub(crate) fn len(&self) -> usize
        ensures value { result ≡ length self.now.runs }
        ensures small { result < 2 ^ 63 }
    {
        self.ends.len()
    }

    /// An empty block with room for so many runs and items, and half as large again as this one
    /// where there is memory for that.
    pub(crate) fn larger(&self, runs: usize, items: usize) -> Result<Block<T, A>, AllocError>
        ensures empty { IfOk result (λ block. block.runs ≡ []) }
        ensures runs { IfOk result (λ block. runs ≤ block.spare.runs) }
        ensures items { IfOk result (λ block. items ≤ block.spare.items) }
    {
        let (len, size) = (self.ends.len(), self.items.capacity());
        let more_runs = runs.max(len.saturating_add(len / 2));
        let more_items = items.max(size.saturating_add(size / 2));
        let alloc = self.items.allocator();
        match Block::with_room(alloc.clone()?, more_runs, more_items) {
            Ok(block) => Ok(block),
            Err(_) => Block::with_room(alloc.clone()?, runs, items),
        }
    }

    /// How many more items find room.
    pub(crate) fn room(&self) -> usize
        ensures { result ≡ self.now.spare.items }
    {
        self.items.capacity().min(MOST_ITEMS) - self.items.len()
    }

    /// How many more runs find room.
    pub(crate) fn run_room(&self) -> usize
        ensures { result ≡ self.now.spare.runs }
    {
        self.ends.capacity() - self.ends.len()
    }

    /// Makes room for so many more runs.
    pub(crate) fn reserve(&mut self, runs: usize) -> Result<(), AllocError>
        ensures kept { self.new.runs ≡ self.old.runs }
        ensures items { self.new.spare.items ≡ self.old.spare.items }
        ensures ok { OnOk result (runs ≤ self.new.spare.runs) }
        ensures covered { runs ≤ self.old.spare.runs → IsOk result }
        ensures err { OnErr result (self.new ≡ self.old) }
    {
        self.ends.reserve(runs)
    }

    /// Puts a run at the end, where there is room for it.
    #[inline(always)]
    pub(crate) fn push(&mut self, run: &[T])
        requires one { 1 ≤ self.old.spare.runs }
        requires within { length run.now ≤ self.old.spare.items }
        ensures placed { self.new.runs ≡ self.old.runs ++ run.now ∷ [] }
        ensures runs { self.old.spare.runs - 1 ≤ self.new.spare.runs }
        ensures items { self.old.spare.items - length run.now ≤ self.new.spare.items }
    {
        put(&mut self.items, run);
        self.ends.push_reserved(self.items.len() as u32);
    }

    /// The items of a run.
    pub(crate) fn read(&self, place: usize) -> &[T]
        requires { place < length self.now.runs }
        ensures { slice_get self.now.runs place ≡ Some result.now }
    {
        run_at(&self.items, &self.ends, place)
    }

    /// The items of a run; None where there is none at that place.
    pub(crate) fn get(&self, place: usize) -> Option<&[T]>
        ensures { MatchOption result (length self.now.runs ≤ place) (λ run. slice_get self.now.runs place ≡ Some run.now) }
    {
        if place < self.len() {
            Some(self.read(place))
        } else {
            None
        }
    }

    /// Takes the runs from this place on away.
    pub(crate) fn cut(&mut self, to: usize)
        requires { to ≤ length self.old.runs }
        ensures kept { self.new.runs ≡ take to self.old.runs }
        ensures runs { self.old.spare.runs ≤ self.new.spare.runs }
        ensures items { self.old.spare.items ≤ self.new.spare.items }
    {
        let start = start_of(&self.ends, to);
        self.items.truncate(start);
        self.ends.truncate(to);
    }
}
