ghost use Rattle.std.specs.Prelude.{◌≡◌, ◌+◌, ◌++◌, ◌∷◌, [], ◌<◌, ◌≤◌, length, slice_get, slice_set, option_copied};
ghost use Rattle.std.specs.Prelude.{replicate, Some, IfOk, OnOk, OnErr, vec_len, vec_capacity};
ghost use Rattle.ipg_memo.specs.Chunks.{size};

use std::alloc::{AllocError, Allocator};
use std::marker::Model;

/// How many items a chunk has room for at most.
pub(crate) const SIZE: usize = 8192;

/// So many items a small chunk has room for.
const LEAST: usize = 64;

/// Items in room for so many.
#[derive(Drop)]
pub(crate) struct Chunk<T, A: Allocator> {
    items: Vec<T, A>,
}

impl<T, A: Allocator> Model for Chunk<T, A> {
    ghost use Rattle.ipg_memo.specs.Filled.{Filled};

    ghost Value = { Filled T };

    ghost use Rattle.ipg_memo.specs.Chunks.{filled_in_chunk, IsSized};

    ghost view = { λ a. filled_in_chunk a };

    ghost invariant = { λ a. IsSized a };
}

/// Puts an item at the end so many times, where there is room for them.
#[inline(always)]
fn fill<T: Copy, A: Allocator>(items: &mut Vec<T, A>, item: T, count: usize)
    requires { vec_len items.old + count ≤ vec_capacity items.old }
    ensures items { items.new.items ≡ items.old.items ++ replicate count item }
    ensures capacity { vec_capacity items.new ≡ vec_capacity items.old }
{
    let mut done = 0;
    while done < count {
        items.push_reserved(item);
        done += 1;
    }
}

impl<T: Copy, A: Allocator + Clone + Drop> Chunk<T, A> {
    /// A small chunk without items.
    pub(crate) fn small(alloc: A) -> Result<Chunk<T, A>, AllocError>
        ensures items { IfOk result (λ chunk. chunk.items ≡ []) }
        ensures room { IfOk result (λ chunk. 1 ≤ chunk.spare) }
    {
        Ok(Chunk {
            items: Vec::with_capacity(alloc, LEAST)?,
        })
    }

    /// A chunk without items: of full size where there is memory for that, else a small one.
    pub(crate) fn large(alloc: &A) -> Result<Chunk<T, A>, AllocError>
        ensures items { IfOk result (λ chunk. chunk.items ≡ []) }
        ensures room { IfOk result (λ chunk. 1 ≤ chunk.spare) }
    {
        match Vec::with_capacity(alloc.clone()?, SIZE) {
            Ok(items) => Ok(Chunk { items }),
            Err(_) => Chunk::small(alloc.clone()?),
        }
    }

    /// How many items it holds.
    #[inline(always)]
    pub(crate) fn len(&self) -> usize
        ensures value { result ≡ length self.now.items }
        ensures within { result ≤ size }
    {
        self.items.len()
    }

    /// How many more items find room.
    #[inline(always)]
    pub(crate) fn room(&self) -> usize
        ensures { result ≡ self.now.spare }
    {
        self.items.capacity() - self.items.len()
    }

    /// Makes room for twice as many items, up to the full size.
    pub(crate) fn grow(&mut self) -> Result<(), AllocError>
        requires { length self.old.items < size }
        ensures kept { self.new.items ≡ self.old.items }
        ensures ok { OnOk result (1 ≤ self.new.spare) }
        ensures err { OnErr result (self.new ≡ self.old) }
    {
        let len = self.items.len();
        self.items.reserve_exact(len.max(LEAST).min(SIZE - len))
    }

    /// The item at a place; None where there is none.
    #[inline(always)]
    pub(crate) fn get(&self, at: usize) -> Option<&T>
        ensures { option_copied result ≡ slice_get self.now.items at }
    {
        self.items.get(at)
    }

    /// The item at a place where there is one.
    #[inline(always)]
    pub(crate) fn read(&self, at: usize) -> &T
        requires { at < length self.now.items }
        ensures { slice_get self.now.items at ≡ Some result.now }
    {
        &self.items[at]
    }

    /// Puts an item in the place of another.
    #[inline(always)]
    pub(crate) fn set(&mut self, at: usize, item: T)
        requires { at < length self.old.items }
        ensures items { self.new.items ≡ slice_set self.old.items at item }
        ensures spare { self.new.spare ≡ self.old.spare }
    {
        self.items[at] = item;
    }

    /// Puts an item at the end, where there is room for it.
    #[inline(always)]
    pub(crate) fn push(&mut self, item: T)
        requires { 1 ≤ self.old.spare }
        ensures items { self.new.items ≡ self.old.items ++ item ∷ [] }
        ensures within { length self.new.items ≤ size }
    {
        self.items.push_reserved(item);
    }

    /// Puts an item at the end so many times, where there is room for them.
    #[inline(always)]
    pub(crate) fn fill(&mut self, item: T, count: usize)
        requires { count ≤ self.old.spare }
        ensures items { self.new.items ≡ self.old.items ++ replicate count item }
        ensures within { length self.new.items ≤ size }
    {
        fill(&mut self.items, item, count);
    }
}
