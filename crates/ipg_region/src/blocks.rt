ghost use Rattle.std.specs.Prelude.{◌≡◌, ◌-◌, ◌++◌, ◌∷◌, [], ◌<◌, ◌≤◌, length, take, slice_get, Some, IsOk, IfOk, OnOk, OnErr, MatchOption};
ghost use Rattle.ipg_region.specs.Held.{nothing_held};
ghost use Rattle.ipg_region.specs.Stack.{flat};

use crate::block::Block;
use std::alloc::{AllocError, Allocator};
use std::marker::Model;
use std::mem::replace;

/// More runs than a place can tell count as want of memory.
const TOO_MANY_RUNS: AllocError = AllocError;

/// Runs in blocks. Only the last block takes more, and it alone has room that counts.
#[derive(Drop)]
pub(crate) struct Blocks<T, A: Allocator> {
    full: Vec<Block<T, A>, A>,
    last: Block<T, A>,
    /// How many runs the full blocks hold.
    before: usize,
}

impl<T, A: Allocator> Model for Blocks<T, A> {
    ghost use Rattle.ipg_region.specs.Held.{Held};

    ghost Value = { Held T };

    ghost use Rattle.ipg_region.specs.Stack.{held_in_blocks, IsCounted};

    ghost view = { λ a. held_in_blocks a };

    ghost invariant = { λ a. IsCounted a };
}

/// The run at this place, which is looked for from the last block back: later blocks are larger.
fn read_in<T: Copy, A: Allocator + Clone + Drop>(
    blocks: &[Block<T, A>],
    end: usize,
    place: usize,
) -> &[T]
    requires counted { end ≡ length (flat blocks.now) }
    requires within { place < end }
    ensures { slice_get (flat blocks.now) place ≡ Some result.now }
{
    let mut at = blocks.len();
    let mut start = end;
    while place < start {
        at -= 1;
        start -= blocks[at].len();
    }
    blocks[at].read(place - start)
}

/// Takes the runs from this place on away, and the blocks that held no others.
fn cut_in<T: Copy, A: Allocator + Clone + Drop>(
    blocks: &mut Vec<Block<T, A>, A>,
    end: usize,
    to: usize,
)
    requires counted { end ≡ length (flat blocks.old.items) }
    requires within { to ≤ end }
    ensures { flat blocks.new.items ≡ take to (flat blocks.old.items) }
{
    let mut start = end;
    while let Some(mut block) = blocks.pop() {
        start -= block.len();
        if start < to {
            block.cut(to - start);
            blocks.push_reserved(block);
            return;
        }
    }
}

impl<T: Copy, A: Allocator + Clone + Drop> Blocks<T, A> {
    /// No runs, and no memory yet.
    pub(crate) fn new(alloc: A) -> Result<Blocks<T, A>, AllocError>
        ensures { IfOk result (λ blocks. blocks ≡ nothing_held) }
    {
        let again = alloc.clone()?;
        Ok(Blocks {
            full: Vec::new(alloc),
            last: Block::with_room(again, 0, 0)?,
            before: 0,
        })
    }

    /// How many runs there are.
    pub(crate) fn len(&self) -> usize
        ensures { result ≡ length self.now.runs }
    {
        self.before + self.last.len()
    }

    /// How many more items find room.
    pub(crate) fn room(&self) -> usize
        ensures { result ≡ self.now.spare.items }
    {
        self.last.room()
    }

    /// How many more runs find room.
    pub(crate) fn run_room(&self) -> usize
        ensures { result ≡ self.now.spare.runs }
    {
        self.last.run_room()
    }

    /// Opens a block with at least this room. A last block without runs is given up for it.
    #[cold]
    #[inline(never)]
    fn open(&mut self, runs: usize, items: usize) -> Result<(), AllocError>
        ensures kept { self.new.runs ≡ self.old.runs }
        ensures runs { OnOk result (runs ≤ self.new.spare.runs) }
        ensures items { OnOk result (items ≤ self.new.spare.items) }
        ensures err { OnErr result (self.new ≡ self.old) }
    {
        let before = self.before + self.last.len();
        if before > isize::MAX as usize {
            return Err(TOO_MANY_RUNS);
        }
        let block = self.last.larger(runs, items)?;
        if self.last.len() == 0 {
            self.last = block;
            return Ok(());
        }
        self.full.reserve(1)?;
        let last = replace(&mut self.last, block);
        self.full.push_reserved(last);
        self.before = before;
        Ok(())
    }

    /// Makes room for so many more runs, and so many more items in all of them. Where it opens a
    /// block for them, the block has room for at least `chunk` items.
    #[inline(always)]
    pub(crate) fn reserve(
        &mut self,
        runs: usize,
        items: usize,
        chunk: usize,
    ) -> Result<(), AllocError>
        ensures kept { self.new.runs ≡ self.old.runs }
        ensures runs { OnOk result (runs ≤ self.new.spare.runs) }
        ensures items { OnOk result (items ≤ self.new.spare.items) }
        ensures more { OnOk result (self.old.spare.items - items ≤ self.new.spare.items - items) }
        ensures covered { runs ≤ self.old.spare.runs → items ≤ self.old.spare.items → IsOk result }
        ensures err { OnErr result (self.new ≡ self.old) }
    {
        if items <= self.last.room() {
            self.last.reserve(runs)
        } else {
            self.open(runs, items.max(chunk))
        }
    }

    /// Puts a run at the end, where there is room for it.
    #[inline(always)]
    pub(crate) fn push(&mut self, run: &[T])
        requires one { 1 ≤ self.old.spare.runs }
        requires within { length run.now ≤ self.old.spare.items }
        ensures placed { self.new.runs ≡ self.old.runs ++ run.now ∷ [] }
        ensures runs { self.old.spare.runs - 1 ≤ self.new.spare.runs }
        ensures items { self.old.spare.items - length run.now ≤ self.new.spare.items }
    {
        self.last.push(run);
    }

    /// The items of a run; None where there is none at that place.
    pub(crate) fn get(&self, place: usize) -> Option<&[T]>
        ensures { MatchOption result (length self.now.runs ≤ place) (λ run. slice_get self.now.runs place ≡ Some run.now) }
    {
        if place < self.before {
            Some(read_in(&self.full, self.before, place))
        } else {
            self.last.get(place - self.before)
        }
    }

    /// Takes the runs from this place on away. The last block stays, for its room.
    pub(crate) fn cut(&mut self, to: usize)
        requires { to ≤ length self.old.runs }
        ensures kept { self.new.runs ≡ take to self.old.runs }
        ensures runs { self.old.spare.runs ≤ self.new.spare.runs }
        ensures items { self.old.spare.items ≤ self.new.spare.items }
    {
        if to < self.before {
            cut_in(&mut self.full, self.before, to);
            self.before = to;
        }
        self.last.cut(to - self.before);
    }
}
