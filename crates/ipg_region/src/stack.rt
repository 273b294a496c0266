ghost use Rattle.std.specs.Prelude.{◌≡◌, ◌+◌, ◌^◌, ◌<◌, ◌++◌, ◌∷◌, [], List, length, nat_eq, IfOk, OnOk, OnErr};
ghost use Rattle.ipg_region.specs.Stacked.{none_stacked};

use std::alloc::{AllocError, Allocator};
use std::marker::Model;
use std::mem::replace;

/// How many items the first block has room for.
const LEAST_ROOM: usize = 16;

/// How many items the largest blocks have room for.
const MOST_ROOM: usize = 1 << 12;

/// More items than a place can tell count as want of memory.
const TOO_MANY_ITEMS: AllocError = AllocError;

/// A block that is full: its last item, and those below.
#[derive(Drop)]
pub(crate) struct Full<T, A: Allocator> {
    below: Vec<T, A>,
    last: T,
}

/// A stack of items in blocks, which are never copied.
#[derive(Drop)]
pub struct Stack<T, A: Allocator> {
    full: Vec<Full<T, A>, A>,
    top: Vec<T, A>,
    /// How many items the full blocks hold.
    before: usize,
}

impl<T, A: Allocator> Model for Stack<T, A> {
    ghost use Rattle.ipg_region.specs.Stacked.{Stacked};

    ghost Value = { Stacked T };

    ghost use Rattle.ipg_region.specs.Piled.{stacked_in, AreCounted};

    ghost view = { λ a. stacked_in a };

    ghost invariant = { λ a. AreCounted a };
}

/// A block without items, larger than one of this room where there is memory for that.
fn larger<T, A: Allocator + Clone>(alloc: &A, room: usize) -> Result<Vec<T, A>, AllocError>
    ensures { IfOk result (λ block. block.items ≡ []) }
{
    let more = room.saturating_mul(2).clamp(LEAST_ROOM, MOST_ROOM);
    match Vec::with_capacity(alloc.clone()?, more) {
        Ok(block) => Ok(block),
        Err(_) => Vec::with_capacity(alloc.clone()?, LEAST_ROOM),
    }
}

impl<T: Copy, A: Allocator + Clone + Drop> Stack<T, A> {
    /// No items, and no memory yet.
    pub fn new(alloc: A) -> Result<Stack<T, A>, AllocError>
        ensures { IfOk result (λ stack. stack ≡ none_stacked) }
    {
        let again = alloc.clone()?;
        Ok(Stack {
            full: Vec::new(alloc),
            top: Vec::new(again),
            before: 0,
        })
    }

    /// How many items there are.
    pub fn len(&self) -> usize
        ensures value { result ≡ length self.now.items }
        ensures small { result + 1 < 2 ^ 64 }
    {
        self.before + self.top.len()
    }

    /// Whether there are no items.
    pub fn is_empty(&self) -> bool
        ensures { result ≡ nat_eq (length self.now.items) 0 }
    {
        self.len() == 0
    }

    /// Opens a block with room for an item.
    #[cold]
    fn open(&mut self) -> Result<(), AllocError>
        ensures { self.new ≡ self.old }
    {
        let before = self.before + self.top.len();
        if before > isize::MAX as usize {
            return Err(TOO_MANY_ITEMS);
        }
        let block = larger(self.top.allocator(), self.top.capacity())?;
        self.full.reserve(1)?;
        let mut below = replace(&mut self.top, block);
        if let Some(last) = below.pop() {
            self.full.push_reserved(Full { below, last });
            self.before = before;
        }
        Ok(())
    }

    /// Puts a copy of an item on top.
    pub fn push(&mut self, item: &T) -> Result<(), AllocError>
        ensures ok { OnOk result (self.new.items ≡ self.old.items ++ item.now ∷ []) }
        ensures err { OnErr result (self.new ≡ self.old) }
    {
        if self.top.len() == self.top.capacity() {
            self.open()?;
        }
        self.top.reserve(1)?;
        self.top.push_reserved(*item);
        Ok(())
    }

    /// Takes the item on top away, and puts it into a place. Where there is none, nothing changes.
    pub fn pop_into(&mut self, place: &mut T)
        ensures some { (rest : List T) (item : T) → self.old.items ≡ rest ++ item ∷ [] → (self.new.items ≡ rest) × (place.new ≡ item) }
        ensures none { self.old.items ≡ [] → (self.new.items ≡ []) × (place.new ≡ place.old) }
    {
        if let Some(item) = self.top.pop() {
            *place = item;
            return;
        }
        if let Some(block) = self.full.pop() {
            let Full { below, last } = block;
            self.before -= below.len() + 1;
            self.top = below;
            *place = last;
        }
    }
}
