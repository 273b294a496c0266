ghost use Rattle.std.specs.Prelude.{◌≡◌, ℕ, ◌+◌, ◌^◌, ◌<◌, ◌≤◌, length, slice_get, Some, IsOk, IfOk, OnOk, OnErr, MatchOption};
ghost use Rattle.ipg_region.specs.Held.{nothing_held, with_run, HasRoom, before};

use crate::blocks::Blocks;
use std::alloc::{AllocError, Allocator};
use std::marker::Model;

/// More than 2^32 - 1 runs count as want of memory.
const TOO_MANY_RUNS: AllocError = AllocError;

/// The place of a run in its region.
#[derive(Clone, Copy, Debug, PartialEq, Eq)]
pub struct RunId {
    pub place: u32,
}

/// Room that is set aside, for so many runs and so many items in all.
#[derive(Clone, Copy, Debug)]
pub struct Spare {
    runs: usize,
    items: usize,
}

/// Runs of items, each read by its place.
#[derive(Drop)]
pub struct Region<T, A: Allocator> {
    blocks: Blocks<T, A>,
    spare: Spare,
    chunk: usize,
}

impl<T, A: Allocator> Model for Region<T, A> {
    ghost use Rattle.ipg_region.specs.Held.{Held};

    ghost Value = { Held T };

    ghost use Rattle.ipg_region.specs.Stack.{held_in_region, IsCovered};

    ghost view = { λ a. held_in_region a };

    ghost invariant = { λ a. IsCovered a };
}

impl<T: Copy, A: Allocator + Clone + Drop> Region<T, A> {
    /// A region without runs. Where it asks for room, it asks for that of at least `chunk` items.
    pub fn new(alloc: A, chunk: u32) -> Result<Region<T, A>, AllocError>
        requires { 1 ≤ chunk }
        ensures { IfOk result (λ region. region ≡ nothing_held) }
    {
        Ok(Region {
            blocks: Blocks::new(alloc)?,
            spare: Spare { runs: 0, items: 0 },
            chunk: chunk as usize,
        })
    }

    /// Whether so many runs more have places; where they don't, that counts as want of memory.
    fn count(&self, runs: usize) -> Result<(), AllocError>
        ensures ok { OnOk result (length self.now.runs + runs < 2 ^ 32) }
        ensures some { length self.now.runs + runs < 2 ^ 32 → IsOk result }
    {
        if runs < (u32::MAX as usize + 1) - self.blocks.len() {
            Ok(())
        } else {
            Err(TOO_MANY_RUNS)
        }
    }

    /// Puts a run at the end, and gives its place. It cannot fail where `spare` covers it.
    pub fn place(&mut self, run: &[T]) -> Result<RunId, AllocError>
        ensures id { IfOk result (λ id. id.place ≡ length self.old.runs) }
        ensures placed { OnOk result (self.new ≡ with_run self.old run.now) }
        ensures covered { 1 ≤ self.old.spare.runs → length run.now ≤ self.old.spare.items → IsOk result }
        ensures err { OnErr result (self.new ≡ self.old) }
    {
        let runs = self.spare.runs.max(1);
        self.count(runs)?;
        self.blocks.reserve(runs, run.len(), self.chunk)?;
        let place = self.blocks.len() as u32;
        self.blocks.push(run);
        self.spare = Spare {
            runs: self.spare.runs.saturating_sub(1),
            items: self.spare.items.saturating_sub(run.len()),
        };
        Ok(RunId { place })
    }

    /// Puts a run at the end, which `spare` covers, and gives its place.
    #[inline(always)]
    pub fn place_spare(&mut self, run: &[T]) -> RunId
        requires one { 1 ≤ self.old.spare.runs }
        requires within { length run.now ≤ self.old.spare.items }
        ensures id { result.place ≡ length self.old.runs }
        ensures placed { self.new ≡ with_run self.old run.now }
    {
        let place = self.blocks.len() as u32;
        self.blocks.push(run);
        self.spare = Spare {
            runs: self.spare.runs - 1,
            items: self.spare.items - run.len(),
        };
        RunId { place }
    }

    /// Makes room for this many runs, and this many items in all of them, and sets aside what there is: so the next runs
    /// are covered. No more than `chunk` runs are set aside unasked, since a new block has room for all that are.
    #[cold]
    #[inline(never)]
    fn set_aside(&mut self, runs: usize, items: usize) -> Result<(), AllocError>
        ensures kept { self.new.runs ≡ self.old.runs }
        ensures room { OnOk result (HasRoom self.new runs items) }
        ensures more { OnOk result (HasRoom self.new self.old.spare.runs self.old.spare.items) }
        ensures err { OnErr result (self.new ≡ self.old) }
    {
        let least = self.spare.runs.max(runs);
        self.count(least)?;
        self.blocks
            .reserve(least, self.spare.items.max(items), self.chunk)?;
        let places = u32::MAX as usize - self.blocks.len();
        self.spare = Spare {
            runs: least
                .max(self.chunk)
                .min(self.blocks.run_room())
                .min(places),
            items: self.blocks.room(),
        };
        Ok(())
    }

    /// Sets room aside for at least this many runs, and this many items in all of them.
    #[inline(always)]
    pub fn reserve(&mut self, runs: u32, items: u32) -> Result<(), AllocError>
        ensures kept { self.new.runs ≡ self.old.runs }
        ensures room { OnOk result (HasRoom self.new runs items) }
        ensures more { OnOk result (HasRoom self.new self.old.spare.runs self.old.spare.items) }
        ensures err { OnErr result (self.new ≡ self.old) }
    {
        if runs as usize <= self.spare.runs && items as usize <= self.spare.items {
            Ok(())
        } else {
            self.set_aside(runs as usize, items as usize)
        }
    }

    /// The items of a run; None where there is none at that place.
    pub fn get(&self, id: RunId) -> Option<&[T]>
        ensures { MatchOption result (length self.now.runs ≤ id.place) (λ run. slice_get self.now.runs id.place ≡ Some run.now) }
    {
        self.blocks.get(id.place as usize)
    }

    /// The place that the next run gets.
    pub fn mark(&self) -> RunId
        ensures { result.place ≡ length self.now.runs }
    {
        RunId {
            place: self.blocks.len() as u32,
        }
    }

    /// Takes the runs from this place on away.
    pub fn cut(&mut self, to: RunId)
        requires { to.place ≤ length self.old.runs }
        ensures kept { self.new ≡ before self.old to.place }
        ensures reads { (k : ℕ) → k < to.place → slice_get self.new.runs k ≡ slice_get self.old.runs k }
    {
        self.blocks.cut(to.place as usize);
    }
}
