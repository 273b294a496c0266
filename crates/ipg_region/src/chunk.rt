ghost use Rattle.std.specs.Prelude.{◌≡◌, ◌++◌, ◌∷◌, [], ◌<◌, ◌≤◌, length, take, slice_get, IfOk, OnOk, OnErr};
ghost use Rattle.ipg_region.specs.Chunks.{size};

use std::alloc::{AllocError, Allocator};
use std::marker::Model;

/// How many items a chunk has room for at most.
pub(crate) const SIZE: usize = 8192;

/// So many items a small chunk has room for.
const LEAST: usize = 256;

/// Items in room for so many.
#[derive(Drop)]
pub(crate) struct Chunk<T, A: Allocator> {
    items: Vec<T, A>,
}

impl<T, A: Allocator> Model for Chunk<T, A> {
    ghost use Rattle.ipg_region.specs.Filled.{Filled};

    ghost Value = { Filled T };

    ghost use Rattle.ipg_region.specs.Chunks.{filled_in_chunk, IsSized};

    ghost view = { λ a. filled_in_chunk a };

    ghost invariant = { λ a. IsSized a };
}

impl<T: Copy, A: Allocator + Clone + Drop> Chunk<T, A> {
    /// A small chunk without items.
    pub(crate) fn new(alloc: A) -> Result<Chunk<T, A>, AllocError>
        ensures items { IfOk result (λ chunk. chunk.items ≡ []) }
        ensures room { IfOk result (λ chunk. 1 ≤ chunk.spare) }
    {
        Ok(Chunk {
            items: Vec::with_capacity(alloc, LEAST)?,
        })
    }

    /// Another chunk without items: of full size where there is memory for that, else a small one.
    pub(crate) fn another(&self) -> Result<Chunk<T, A>, AllocError>
        ensures items { IfOk result (λ chunk. chunk.items ≡ []) }
        ensures room { IfOk result (λ chunk. 1 ≤ chunk.spare) }
    {
        let alloc = self.items.allocator();
        match Vec::with_capacity(alloc.clone()?, SIZE) {
            Ok(items) => Ok(Chunk { items }),
            Err(_) => Chunk::new(alloc.clone()?),
        }
    }

    /// How many items it holds.
    pub(crate) fn len(&self) -> usize
        ensures value { result ≡ length self.now.items }
        ensures within { result ≤ size }
    {
        self.items.len()
    }

    /// How many more items find room.
    #[inline(always)]
    pub(crate) fn room(&self) -> usize
        ensures { result ≡ self.now.spare }
    {
        self.items.capacity() - self.items.len()
    }

    /// Makes room for twice as many items, up to the full size.
    pub(crate) fn grow(&mut self) -> Result<(), AllocError>
        requires { length self.old.items < size }
        ensures kept { self.new.items ≡ self.old.items }
        ensures ok { OnOk result (1 ≤ self.new.spare) }
        ensures err { OnErr result (self.new ≡ self.old) }
    {
        let len = self.items.len();
        self.items.reserve_exact(len.max(LEAST).min(SIZE - len))
    }

    /// Puts an item at the end, where there is room for it.
    #[inline(always)]
    pub(crate) fn push(&mut self, item: T)
        requires { 1 ≤ self.old.spare }
        ensures { self.new.items ≡ self.old.items ++ item ∷ [] }
    {
        self.items.push_reserved(item);
    }

    /// The item at a place; None where there is none.
    pub(crate) fn get(&self, place: usize) -> Option<T>
        ensures { result ≡ slice_get self.now.items place }
    {
        self.items.get(place).copied()
    }

    /// Takes the items from this place on away.
    pub(crate) fn cut(&mut self, to: usize)
        ensures { self.new.items ≡ take to self.old.items }
    {
        self.items.truncate(to);
    }
}
