//! Piles of results, attributes and items.

ghost use Rattle.std.specs.Prelude.{◌≡◌, ◌<◌, ◌≤◌, ◌^◌, length, ◌++◌, ◌∷◌, [], drop, take, ℕ, List, None, Some, OnOk, OnErr, IfOk, slice_set, replicate};
ghost use Rattle.ipg_mach.specs.Piled as spec;
ghost use Rattle.ipg_mach.specs.Piled.{below, above, AreTops, IsBase, Turns};

use ipg_mach_nodes::Kid;
use ipg_mach_slot::Done;
use std::alloc::{AllocError, Allocator};
use std::marker::Model;

/// Where the results, the attributes and the items of a call begin.
#[derive(Clone, Copy, Debug, PartialEq, Eq)]
pub struct Bases {
    pub done: u32,
    pub own: u32,
    pub items: u32,
}

/// The results of terms by their numbers, the attributes and the items so far of all open calls.
#[derive(Drop)]
pub struct Piles<A: Allocator> {
    done: Vec<Option<Done>, A>,
    own: Vec<(u32, i64), A>,
    items: Vec<Kid, A>,
}

impl<A: Allocator> Model for Piles<A> {
    ghost use Rattle.ipg_mach.specs.Piled.{Piled};

    ghost Value = { Piled };

    ghost use Rattle.ipg_mach.specs.Small.{AreSmall};

    ghost view = { λ a. record { done = a.done.items; own = a.own.items; items = a.items.items } };

    ghost invariant = { λ a. AreSmall a };
}

/// So many rows a pile has at most: a base is a number of 32 bits.
const MOST_ROWS: usize = u32::MAX as usize;

/// More rows count as want of memory.
const TOO_MANY_ROWS: AllocError = AllocError;

/// The rows behind the first `count`; none where there are fewer.
fn past<T>(rows: &[T], count: usize) -> &[T]
    ensures { result.now ≡ drop count rows.now }
{
    if count < rows.len() {
        &rows[count..]
    } else {
        &[]
    }
}

/// The first `count` rows; all of them where there are fewer.
fn first<T>(rows: &[T], count: usize) -> &[T]
    ensures { result.now ≡ take count rows.now }
{
    if count < rows.len() {
        &rows[..count]
    } else {
        rows
    }
}

/// Writes a row, where there is one to write over.
fn set_at<T: Copy>(rows: &mut [T], at: usize, row: T)
    ensures { rows.new ≡ slice_set rows.old at row }
{
    if at < rows.len() {
        rows[at] = row;
    }
}

/// Writes the row `at` of those from `base` on, where there is one to write over.
fn set_above<T: Copy>(rows: &mut [T], base: usize, at: usize, row: T)
    ensures length { length rows.new ≡ length rows.old }
    ensures below { base ≤ length rows.old → take base rows.new ≡ take base rows.old }
    ensures above { base ≤ length rows.old → drop base rows.new ≡ slice_set (drop base rows.old) at row }
{
    if base < rows.len() {
        set_at(&mut rows[base..], at, row);
    }
}

/// So many terms more that haven't run.
fn add_terms<A: Allocator>(done: &mut Vec<Option<Done>, A>, terms: u32) -> Result<(), AllocError>
    ensures items { OnOk result (done.new.items ≡ done.old.items ++ replicate terms None) }
    ensures small { length done.old.items < 2 ^ 32 → length done.new.items < 2 ^ 32 }
{
    if terms as usize > MOST_ROWS.saturating_sub(done.len()) {
        return Err(TOO_MANY_ROWS);
    }
    done.reserve(terms as usize)?;
    for _ in 0..terms {
        done.push(None)?;
    }
    Ok(())
}

impl<A: Allocator + Clone + Drop> Piles<A> {
    /// No call has come to anything.
    pub fn new(alloc: A) -> Result<Piles<A>, AllocError>
        ensures { IfOk result (λ piles. piles ≡ spec.nothing) }
    {
        Ok(Piles {
            done: Vec::new(alloc.clone()?),
            own: Vec::new(alloc.clone()?),
            items: Vec::new(alloc),
        })
    }

    /// Where what another call comes to will begin.
    pub fn tops(&self) -> Bases
        ensures { AreTops self.now result }
    {
        Bases {
            done: self.done.len() as u32,
            own: self.own.len() as u32,
            items: self.items.len() as u32,
        }
    }

    /// The results of a call's terms by their numbers.
    pub fn done(&self, base: Bases) -> &[Option<Done>]
        ensures { result.now ≡ (above self.now base).done }
    {
        past(self.done.as_slice(), base.done as usize)
    }

    /// A call's attributes so far.
    pub fn own(&self, base: Bases) -> &[(u32, i64)]
        ensures { result.now ≡ (above self.now base).own }
    {
        past(self.own.as_slice(), base.own as usize)
    }

    /// A call's items so far.
    pub fn items(&self, base: Bases) -> &[Kid]
        ensures { result.now ≡ (above self.now base).items }
    {
        past(self.items.as_slice(), base.items as usize)
    }

    /// The attributes between two places.
    pub fn between(&self, from: u32, to: u32) -> &[(u32, i64)]
        ensures { result.now ≡ spec.between self.now.own from to }
    {
        let rows = past(self.own.as_slice(), from as usize);
        first(rows, to.saturating_sub(from) as usize)
    }

    /// One attribute more.
    pub fn add_own(&mut self, attr: u32, value: i64) -> Result<(), AllocError>
        ensures { (base : Bases) → IsBase self.old base
            → OnOk result (Turns self.old self.new base (record (above self.old base) { own = (above self.old base).own ++ (attr, value) ∷ [] })) }
    {
        if self.own.len() == MOST_ROWS {
            return Err(TOO_MANY_ROWS);
        }
        self.own.push((attr, value))?;
        Ok(())
    }

    /// One item more.
    pub fn add_item(&mut self, item: Kid) -> Result<(), AllocError>
        ensures { (base : Bases) → IsBase self.old base
            → OnOk result (Turns self.old self.new base (record (above self.old base) { items = (above self.old base).items ++ item ∷ [] })) }
    {
        if self.items.len() == MOST_ROWS {
            return Err(TOO_MANY_ROWS);
        }
        self.items.push(item)?;
        Ok(())
    }

    /// A term of the call has its result.
    pub fn set_done(&mut self, base: Bases, term: u32, row: Done)
        ensures { IsBase self.old base → Turns self.old self.new base
            (record (above self.old base) { done = slice_set (above self.old base).done term (Some row) }) }
    {
        set_above(&mut self.done, base.done as usize, term as usize, Some(row));
    }

    /// The call has no items any more.
    pub fn clear_items(&mut self, base: Bases)
        ensures { IsBase self.old base → Turns self.old self.new base (record (above self.old base) { items = [] }) }
    {
        self.items.truncate(base.items as usize);
    }

    /// The call begins anew, with no term of so many done.
    pub fn begin(&mut self, base: Bases, terms: u32) -> Result<(), AllocError>
        ensures { IsBase self.old base → OnOk result (Turns self.old self.new base (record { done = replicate terms None; own = []; items = [] })) }
    {
        self.cut(base);
        add_terms(&mut self.done, terms)
    }

    /// What the call has come to is taken away.
    pub fn cut(&mut self, base: Bases)
        ensures { IsBase self.old base → self.new ≡ below self.old base }
    {
        self.done.truncate(base.done as usize);
        self.own.truncate(base.own as usize);
        self.items.truncate(base.items as usize);
    }
}
