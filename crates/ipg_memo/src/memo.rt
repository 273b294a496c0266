ghost use Rattle.std.specs.Prelude.{◌≡◌, [], ◌<◌, ◌≤◌, Option, None, OnOk, OnErr, IfOk, IfSome, IfNone, length};
ghost use Rattle.std.specs.FinMap as map;
ghost use Rattle.ipg_memo.specs.Keyed.{Entries, of_rows};
ghost use Rattle.ipg_memo.specs.Moved as edits;
ghost use Rattle.ipg_memo.specs.Moved.{IsBehind, IsMoved, IsThereOrPut};
ghost use Rattle.ipg_memo.specs.Parted.{IsSmall};
ghost use Rattle.ipg_memo.specs.Table.{Table};
ghost use Rattle.ipg_memo.specs.Ways as ways;
ghost use Rattle.ipg_memo.specs.Ways.{IsWhole};

use crate::chunks::Chunks;
use crate::index::{Index, Rows};
use crate::reached::Reached;
use ipg_region::RunId;
use std::alloc::{AllocError, Allocator};
use std::marker::Model;

/// So many heads has the smallest index, and so many the largest.
const LEAST_HEADS: u32 = 16;

const MOST_HEADS: usize = u32::MAX as usize;

/// A call: the number of a rule, and the interval of the file that it was called on.
#[derive(Clone, Copy, Debug, PartialEq, Eq, Hash)]
pub struct Key {
    pub rule: u32,
    pub from: u32,
    pub to: u32,
}

/// What a call answered: that there is no tree, or the run of the tree's node.
#[derive(Clone, Copy, Debug, PartialEq, Eq)]
pub enum Entry {
    NoTree,
    Node(RunId),
}

/// The answers so far, by their keys.
#[derive(Drop)]
pub struct Memo<A: Allocator> {
    rows: Rows<A>,
    index: Option<Index<A>>,
}

impl<A: Allocator> Model for Memo<A> {
    ghost use Rattle.std.specs.FinMap as map;
    ghost use Rattle.ipg_memo.specs.Keyed.{Entries, key_code, entry_code, of_rows};

    ghost Value = { Entries };

    ghost coded = { map.code key_code entry_code };

    ghost use Rattle.ipg_memo.specs.Ways.{IsIndexed};

    ghost view = { λ a. of_rows a.rows.items };

    ghost invariant = { λ a. IsIndexed a.rows.items a.index };
}

/// The entry of the row that a way ended at.
#[inline(always)]
fn entry_of<A: Allocator + Clone + Drop>(rows: &Rows<A>, end: Reached) -> Option<Entry>
    ensures { result ≡ ways.entry_at rows.now.items end }
{
    match end {
        Reached::Row(row) => match rows.get(row) {
            Some(known) => Some(known.1),
            None => None,
        },
        Reached::Vacant(_) | Reached::Bare(..) | Reached::Lost => None,
    }
}

/// A row more, of the key whose way ended so.
#[inline(always)]
fn append<A: Allocator + Clone + Drop>(
    rows: &mut Rows<A>,
    index: &mut Index<A>,
    end: Reached,
    key: Key,
    entry: Entry,
) -> Result<(), AllocError>
    requires whole { IsWhole rows.old.items index.old (length rows.old.items) }
    requires ends { ways.reached (ways.key_at rows.old.items) index.old key ≡ end }
    requires free { ways.IsFree end }
    requires bits { IsSmall key }
    ensures whole { IsWhole rows.new.items index.new (length rows.new.items) }
    ensures ok { OnOk result (of_rows rows.new.items ≡ map.insert (of_rows rows.old.items) key entry) }
    ensures err { OnErr result (rows.new.items ≡ rows.old.items) }
{
    rows.reserve()?;
    index.add(end, rows.len())?;
    rows.push_spare((key, entry));
    Ok(())
}

/// Gives a key this entry.
#[inline(always)]
fn enter<A: Allocator + Clone + Drop>(
    rows: &mut Rows<A>,
    index: &mut Index<A>,
    key: Key,
    entry: Entry,
) -> Result<(), AllocError>
    requires whole { IsWhole rows.old.items index.old (length rows.old.items) }
    ensures whole { IsWhole rows.new.items index.new (length rows.new.items) }
    ensures ok { OnOk result (of_rows rows.new.items ≡ map.insert (of_rows rows.old.items) key entry) }
    ensures err { OnErr result (rows.new.items ≡ rows.old.items) }
{
    let end = index.reach(rows, &key);
    if let Reached::Row(row) = end {
        rows.set(row, (key, entry));
        return Ok(());
    }
    append(rows, index, end, key, entry)
}

/// The first index, of the first key with its entry.
#[cold]
#[inline(never)]
fn first<A: Allocator + Clone + Drop>(
    rows: &mut Rows<A>,
    key: Key,
    entry: Entry,
) -> Result<Index<A>, AllocError>
    requires { rows.old.items ≡ [] }
    ensures whole { IfOk result (λ index. IsWhole rows.new.items index (length rows.new.items)) }
    ensures ok { OnOk result (of_rows rows.new.items ≡ map.insert (of_rows rows.old.items) key entry) }
    ensures err { OnErr result (rows.new.items ≡ rows.old.items) }
{
    let mut index = Index::over(rows, LEAST_HEADS, rows.allocator())?;
    enter(rows, &mut index, key, entry)?;
    Ok(index)
}

/// A key behind an edit, at its new place; None for each other.
fn raised(from: u32, to: u32, with: u32, key: Key) -> Option<Key>
    requires { from ≤ to }
    ensures some { IfSome result (λ at. IsBehind from to with key × (at ≡ edits.raised from to with key)) }
    ensures none { IfNone result (IsBehind from to with key → ⊥) }
{
    if key.from < to || key.to < key.from || key.to <= from {
        return None;
    }
    let gone = to - from;
    Some(Key {
        rule: key.rule,
        from: (key.from - gone).checked_add(with)?,
        to: (key.to - gone).checked_add(with)?,
    })
}

/// Gives a key this entry, unless it has one.
fn put_new<A: Allocator + Clone + Drop>(
    memo: &mut Memo<A>,
    key: Key,
    entry: Entry,
) -> Result<(), AllocError>
    ensures { OnOk result (IsThereOrPut key entry memo.old memo.new) }
{
    match memo.get(key) {
        Some(_) => Ok(()),
        None => memo.put(key, entry),
    }
}

/// Carries an entry over an edit, if it doesn't lie across it.
fn carry_one<A: Allocator + Clone + Drop>(
    new: &mut Memo<A>,
    from: u32,
    to: u32,
    with: u32,
    known: &(Key, Entry),
) -> Result<(), AllocError>
    requires { from ≤ to }
    ensures { OnOk result ((old : Entries) → map.get old known.now.0 ≡ None → IsMoved from to with old new.old
        → IsMoved from to with (map.insert old known.now.0 known.now.1) new.new) }
{
    let (key, entry) = *known;
    if key.to <= from {
        return new.put(key, entry);
    }
    match raised(from, to, with, key) {
        Some(at) => put_new(new, at, entry),
        None => Ok(()),
    }
}

/// Carries the entries of rows over an edit.
fn carry_all<A: Allocator + Clone + Drop>(
    new: &mut Memo<A>,
    from: u32,
    to: u32,
    with: u32,
    rows: &Rows<A>,
) -> Result<(), AllocError>
    requires ordered { from ≤ to }
    requires indexed { (index : Option Table) × ways.IsIndexed rows.now.items index }
    requires empty { new.old ≡ map.empty }
    ensures { OnOk result (IsMoved from to with (of_rows rows.now.items) new.new) }
{
    for row in 0..rows.len() {
        carry_one(new, from, to, with, rows.read(row))?;
    }
    Ok(())
}

impl<A: Allocator + Clone + Drop> Memo<A> {
    /// A memo without entries. It takes no memory.
    pub fn new(alloc: A) -> Memo<A>
        ensures { result ≡ map.empty }
    {
        Memo {
            rows: Chunks::new(alloc),
            index: None,
        }
    }

    /// The entry of a key, if it has one.
    #[inline(always)]
    pub fn get(&self, key: Key) -> Option<Entry>
        ensures { result ≡ map.get self.now key }
    {
        match &self.index {
            Some(index) => entry_of(&self.rows, index.reach(&self.rows, &key)),
            None => None,
        }
    }

    /// Gives a key this entry, in place of the one that it had, if any. Where memory runs out, nothing changes.
    #[inline(always)]
    pub fn put(&mut self, key: Key, entry: Entry) -> Result<(), AllocError>
        ensures ok { OnOk result (self.new ≡ map.insert self.old key entry) }
        ensures err { OnErr result (self.new ≡ self.old) }
    {
        match &mut self.index {
            Some(index) => {
                if index.is_full(&self.rows) {
                    *index = Index::over(&self.rows, index.more_heads(), self.rows.allocator())?;
                }
                enter(&mut self.rows, index, key, entry)
            }
            None => {
                self.index = Some(first(&mut self.rows, key, entry)?);
                Ok(())
            }
        }
    }

    /// How many keys have an entry.
    pub fn len(&self) -> usize
        ensures { result ≡ map.len self.now }
    {
        self.rows.len()
    }

    /// Takes all entries away.
    pub fn clear(&mut self)
        ensures { self.new ≡ map.empty }
    {
        self.rows.clear();
        self.index = None;
    }

    /// A memo without entries, with heads for as many as there are rows.
    fn with_room(rows: &Rows<A>) -> Result<Memo<A>, AllocError>
        ensures { IfOk result (λ memo. memo ≡ map.empty) }
    {
        let alloc = rows.allocator();
        let heads = (rows.len().min(MOST_HEADS) as u32).saturating_mul(2);
        let none = Chunks::new(alloc.clone()?);
        let index = Index::over(&none, heads.max(LEAST_HEADS), alloc)?;
        Ok(Memo {
            rows: none,
            index: Some(index),
        })
    }

    /// The entries after an edit that put `with` bytes in place of those from `from` to `to`. The entry of a key that
    /// ends at or before the edit stays. Each other of a key that begins at or behind its end moves, unless its new key
    /// has an entry already.
    pub fn moved(&self, from: u32, to: u32, with: u32) -> Result<Memo<A>, AllocError>
        requires { from ≤ to }
        ensures { IfOk result (IsMoved from to with self.now) }
    {
        let mut new = Memo::with_room(&self.rows)?;
        carry_all(&mut new, from, to, with, &self.rows)?;
        Ok(new)
    }
}
