ghost use Rattle.std.specs.Prelude.{◌≡◌, ◌-◌, ◌^◌, ◌++◌, ◌∷◌, [], ◌<◌, ◌≤◌, length, take, slice_get, IfOk, OnOk, OnErr};
ghost use Rattle.std.specs.List.{AllByRecursion};
ghost use Rattle.ipg_region.specs.Chunks.{joined, IsFull};

use crate::chunk::{Chunk, SIZE};
use crate::region::RunId;
use std::alloc::{AllocError, Allocator};
use std::marker::Model;
use std::mem::replace;

/// So many chunks may be full: a place is a number of 32 bits.
const MOST_FULL: usize = (1 << 19) - 2;

/// More cells count as want of memory.
const TOO_MANY_CELLS: AllocError = AllocError;

/// Items that stay where they were put, each read by its place in the time of one step.
#[derive(Drop)]
pub struct Cells<T, A: Allocator> {
    full: Vec<Chunk<T, A>, A>,
    last: Chunk<T, A>,
}

impl<T, A: Allocator> Model for Cells<T, A> {
    ghost use Rattle.ipg_region.specs.Filled.{Filled};

    ghost Value = { Filled T };

    ghost use Rattle.ipg_region.specs.Chunks.{filled_in, AreChunks};

    ghost view = { λ a. filled_in a };

    ghost invariant = { λ a. AreChunks a };
}

/// Takes the items from this place on away, and the chunks that held no others.
fn cut_in<T: Copy, A: Allocator + Clone + Drop>(
    full: &mut Vec<Chunk<T, A>, A>,
    last: &mut Chunk<T, A>,
    to: usize,
)
    requires full { AllByRecursion IsFull full.old.items }
    requires few { length full.old.items < 2 ^ 19 - 1 }
    ensures kept { joined full.new.items ++ last.new.items ≡ take to (joined full.old.items ++ last.old.items) }
    ensures full { AllByRecursion IsFull full.new.items }
    ensures few { length full.new.items < 2 ^ 19 - 1 }
{
    while to < full.len() * SIZE {
        match full.pop() {
            Some(chunk) => *last = chunk,
            None => return,
        }
    }
    last.cut(to - full.len() * SIZE);
}

impl<T: Copy, A: Allocator + Clone + Drop> Cells<T, A> {
    /// No items, and room for those of a small chunk.
    pub fn new(alloc: A) -> Result<Cells<T, A>, AllocError>
        ensures { IfOk result (λ cells. cells.items ≡ []) }
    {
        let again = alloc.clone()?;
        Ok(Cells {
            full: Vec::new(alloc),
            last: Chunk::new(again)?,
        })
    }

    /// The place that the next item gets.
    pub fn mark(&self) -> RunId
        ensures { result.place ≡ length self.now.items }
    {
        RunId {
            place: (self.full.len() * SIZE + self.last.len()) as u32,
        }
    }

    /// Makes room in the last chunk, or opens one behind it where it is full.
    #[cold]
    #[inline(never)]
    fn open(&mut self) -> Result<(), AllocError>
        ensures kept { self.new.items ≡ self.old.items }
        ensures ok { OnOk result (1 ≤ self.new.spare) }
        ensures err { OnErr result (self.new ≡ self.old) }
    {
        if self.last.len() < SIZE {
            return self.last.grow();
        }
        if self.full.len() >= MOST_FULL {
            return Err(TOO_MANY_CELLS);
        }
        let chunk = self.last.another()?;
        self.full.reserve(1)?;
        let last = replace(&mut self.last, chunk);
        self.full.push_reserved(last);
        Ok(())
    }

    /// Sets room aside for one item more.
    #[inline(always)]
    pub fn reserve(&mut self) -> Result<(), AllocError>
        ensures kept { self.new.items ≡ self.old.items }
        ensures ok { OnOk result (1 ≤ self.new.spare) }
        ensures err { OnErr result (self.new ≡ self.old) }
    {
        if self.last.room() > 0 {
            Ok(())
        } else {
            self.open()
        }
    }

    /// Puts an item at the end, which `spare` covers, and gives its place.
    #[inline(always)]
    pub fn place_spare(&mut self, item: T) -> RunId
        requires { 1 ≤ self.old.spare }
        ensures id { result.place ≡ length self.old.items }
        ensures placed { self.new.items ≡ self.old.items ++ item ∷ [] }
    {
        let id = self.mark();
        self.last.push(item);
        id
    }

    /// The item at a place; None where there is none.
    pub fn get(&self, id: RunId) -> Option<T>
        ensures { result ≡ slice_get self.now.items id.place }
    {
        let place = id.place as usize;
        let block = place / SIZE;
        if block < self.full.len() {
            self.full[block].get(place % SIZE)
        } else {
            self.last.get(place - self.full.len() * SIZE)
        }
    }

    /// Takes the items from this place on away, if there are any.
    pub fn cut(&mut self, to: RunId)
        ensures { self.new.items ≡ take to.place self.old.items }
    {
        cut_in(&mut self.full, &mut self.last, to.place as usize);
    }
}
