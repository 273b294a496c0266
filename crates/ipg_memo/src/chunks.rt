ghost use Rattle.std.specs.Prelude.{◌≡◌, ◌^◌, ◌++◌, ◌∷◌, [], ◌<◌, ◌≤◌, length, slice_get, slice_set, option_copied, replicate, Some, IfOk, OnOk, OnErr};

use crate::chunk::{Chunk, SIZE};
use std::alloc::{AllocError, Allocator};
use std::marker::Model;

/// So many chunks there are at most: places of items are numbers of 32 bits.
const MOST_CHUNKS: usize = 1 << 19;

/// More chunks count as want of memory.
const TOO_MANY_CHUNKS: AllocError = AllocError;

/// Items in chunks. One is copied only while it grows to its full size, as the first does.
#[derive(Drop)]
pub(crate) struct Chunks<T, A: Allocator> {
    chunks: Vec<Chunk<T, A>, A>,
    /// How many items there are.
    count: usize,
}

impl<T, A: Allocator> Model for Chunks<T, A> {
    ghost use Rattle.ipg_memo.specs.Filled.{Filled};

    ghost Value = { Filled T };

    ghost use Rattle.ipg_memo.specs.Chunks.{filled_in, AreCounted};

    ghost view = { λ a. filled_in a };

    ghost invariant = { λ a. AreCounted a };
}

impl<T: Copy, A: Allocator + Clone + Drop> Chunks<T, A> {
    /// No items. It takes no memory.
    pub(crate) fn new(alloc: A) -> Chunks<T, A>
        ensures { result ≡ record { items = []; spare = 0 } }
    {
        Chunks {
            chunks: Vec::new(alloc),
            count: 0,
        }
    }

    /// What chunks are taken from.
    pub(crate) fn allocator(&self) -> &A {
        self.chunks.allocator()
    }

    /// How many items there are.
    #[inline(always)]
    pub(crate) fn len(&self) -> usize
        ensures value { result ≡ length self.now.items }
        ensures small { result ≤ 2 ^ 32 }
    {
        self.count
    }

    /// The item at a place; None where there is none.
    #[inline(always)]
    pub(crate) fn get(&self, at: usize) -> Option<&T>
        ensures { option_copied result ≡ slice_get self.now.items at }
    {
        let chunk = at / SIZE;
        if chunk < self.chunks.len() {
            self.chunks[chunk].get(at % SIZE)
        } else {
            None
        }
    }

    /// The item at a place where there is one.
    #[inline(always)]
    pub(crate) fn read(&self, at: usize) -> &T
        requires { at < length self.now.items }
        ensures { slice_get self.now.items at ≡ Some result.now }
    {
        self.chunks[at / SIZE].read(at % SIZE)
    }

    /// Puts an item in the place of another.
    #[inline(always)]
    pub(crate) fn set(&mut self, at: usize, item: T)
        requires { at < length self.old.items }
        ensures { self.new.items ≡ slice_set self.old.items at item }
    {
        self.chunks[at / SIZE].set(at % SIZE, item);
    }

    /// Takes all items away, and gives their chunks back.
    pub(crate) fn clear(&mut self)
        ensures { self.new.items ≡ [] }
    {
        self.chunks.clear();
        self.count = 0;
    }

    /// A chunk without items: small where it is the first.
    fn another(&self) -> Result<Chunk<T, A>, AllocError>
        ensures items { IfOk result (λ chunk. chunk.items ≡ []) }
        ensures room { IfOk result (λ chunk. 1 ≤ chunk.spare) }
    {
        let alloc = self.chunks.allocator();
        if self.chunks.is_empty() {
            Chunk::small(alloc.clone()?)
        } else {
            Chunk::large(alloc)
        }
    }

    /// Makes room in the last chunk, or opens one behind it where it is full.
    #[cold]
    #[inline(never)]
    fn open(&mut self) -> Result<(), AllocError>
        ensures kept { self.new.items ≡ self.old.items }
        ensures ok { OnOk result (1 ≤ self.new.spare) }
        ensures err { OnErr result (self.new ≡ self.old) }
    {
        let chunks = self.chunks.len();
        if chunks > 0 && self.chunks[chunks - 1].len() < SIZE {
            return self.chunks[chunks - 1].grow();
        }
        if chunks >= MOST_CHUNKS {
            return Err(TOO_MANY_CHUNKS);
        }
        let chunk = self.another()?;
        self.chunks.push(chunk)?;
        Ok(())
    }

    /// For how many items more there is room at once.
    #[inline(always)]
    pub(crate) fn room(&self) -> usize
        ensures { result ≡ self.now.spare }
    {
        let chunks = self.chunks.len();
        if chunks > 0 {
            self.chunks[chunks - 1].room()
        } else {
            0
        }
    }

    /// Sets room aside for one item more.
    #[inline(always)]
    pub(crate) fn reserve(&mut self) -> Result<(), AllocError>
        ensures kept { self.new.items ≡ self.old.items }
        ensures ok { OnOk result (1 ≤ self.new.spare) }
        ensures err { OnErr result (self.new ≡ self.old) }
    {
        if self.room() > 0 { Ok(()) } else { self.open() }
    }

    /// Puts an item at the end, which `spare` covers.
    #[inline(always)]
    pub(crate) fn push_spare(&mut self, item: T)
        requires { 1 ≤ self.old.spare }
        ensures { self.new.items ≡ self.old.items ++ item ∷ [] }
    {
        let last = self.chunks.len() - 1;
        self.chunks[last].push(item);
        self.count += 1;
    }

    /// Puts an item at the end so many times, which `spare` covers.
    #[inline(always)]
    pub(crate) fn fill_spare(&mut self, item: T, count: usize)
        requires some { 1 ≤ count }
        requires room { count ≤ self.old.spare }
        ensures { self.new.items ≡ self.old.items ++ replicate count item }
    {
        let last = self.chunks.len() - 1;
        self.chunks[last].fill(item, count);
        self.count += count;
    }
}
