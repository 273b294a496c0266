ghost use Rattle.std.specs.Prelude.{◌≡◌, ℕ, ◌+◌, ◌-◌, ◌<◌, ◌≤◌, ◌^◌, ◌++◌, Option, None, Some, length, slice_get, slice_set, replicate, option_copied};
ghost use Rattle.std.specs.Prelude.{IfOk, OnOk, OnErr};
ghost use Rattle.ipg_memo.specs.Parted.{IsSmall, IsParted};
ghost use Rattle.ipg_memo.specs.Ways as ways;

use crate::chunks::Chunks;
use crate::link::Link;
use crate::memo::{Entry, Key};
use crate::places::{BITS, home, side};
use crate::reached::{Reached, Step};
use std::alloc::{AllocError, Allocator};
use std::marker::Model;

/// So many cells lie under a row.
const SIDES: usize = 8;

/// Places lie below this.
const PLACES: usize = u32::MAX as usize;

/// More cells or rows than there are places count as want of memory.
const NO_PLACE: AllocError = AllocError;

/// Keys with their entries, in the order in which they came.
pub(crate) type Rows<A> = Chunks<(Key, Entry), A>;

/// Where each row's key leads to it.
#[derive(Drop)]
pub(crate) struct Index<A: Allocator> {
    heads: u32,
    top: Vec<Link, A>,
    /// The cells under rows.
    under: Chunks<Link, A>,
    /// Where the cells under each row begin.
    below: Chunks<Link, A>,
}

impl<A: Allocator> Model for Index<A> {
    ghost use Rattle.std.specs.Prelude.{◌++◌};
    ghost use Rattle.ipg_memo.specs.Table.{Table};

    ghost Value = { Table };

    ghost view = { λ a. record { heads = a.heads; cells = a.top.items ++ a.under.items; below = a.below.items } };
}

fn link_at(links: &[Link], at: usize) -> Option<Link>
    ensures { result ≡ slice_get links.now at }
{
    links.get(at).copied()
}

/// So many cells, which name no row.
fn no_links<A: Allocator + Drop>(alloc: A, count: usize) -> Result<Vec<Link, A>, AllocError>
    ensures { IfOk result (λ links. links.items ≡ replicate count None) }
{
    let mut links = Vec::with_capacity(alloc, count)?;
    links.resize(count, Link::none())?;
    Ok(links)
}

/// Eight cells more, which name no row. Where memory runs out, there may be some of them.
fn widen<A: Allocator + Clone + Drop>(cells: &mut Chunks<Link, A>) -> Result<(), AllocError>
    ensures ok { OnOk result (cells.new.items ≡ cells.old.items ++ replicate 8 None) }
    ensures err { OnErr result ((count : ℕ) × (cells.new.items ≡ cells.old.items ++ replicate count None)) }
{
    cells.reserve()?;
    if cells.room() >= SIDES {
        cells.fill_spare(Link::none(), SIDES);
        return Ok(());
    }
    let mut count = 0;
    while count < SIDES {
        cells.reserve()?;
        cells.push_spare(Link::none());
        count += 1;
    }
    Ok(())
}

impl<A: Allocator + Clone + Drop> Index<A> {
    /// On from a row of another key.
    #[inline(always)]
    fn past(&self, key: &Key, left: u32, row: usize) -> Step
        requires { left ≤ 32 }
        ensures { result ≡ ways.past self.now key.now left row }
    {
        if left == 0 {
            return Step::Stops(Reached::Lost);
        }
        match self.below.get(row).copied() {
            None => Step::Stops(Reached::Lost),
            Some(link) => match link.place() {
                None => Step::Stops(Reached::Bare(row, side(key, left))),
                Some(begin) => Step::Goes(begin + side(key, left)),
            },
        }
    }

    /// On from a row, unless the row has the key.
    #[inline(always)]
    fn at_row(&self, rows: &Rows<A>, key: &Key, left: u32, row: usize) -> Step
        requires { left ≤ 32 }
        ensures { result ≡ ways.at_row self.now key.now left row (ways.key_at rows.now.items row) }
    {
        match rows.get(row) {
            None => Step::Stops(Reached::Lost),
            Some(known) => {
                if *key == known.0 {
                    Step::Stops(Reached::Row(row))
                } else {
                    self.past(key, left, row)
                }
            }
        }
    }

    #[inline(always)]
    fn cell_at(&self, cell: usize) -> Option<Link>
        ensures { result ≡ slice_get self.now.cells cell }
    {
        let heads = self.top.len();
        if cell < heads {
            link_at(&self.top, cell)
        } else {
            self.under.get(cell - heads).copied()
        }
    }

    /// Lets a cell name another row, or none.
    #[inline(always)]
    fn set_cell(&mut self, cell: usize, link: Link)
        requires { cell < length self.old.cells }
        ensures heads { self.new.heads ≡ self.old.heads }
        ensures cells { self.new.cells ≡ slice_set self.old.cells cell link }
        ensures below { self.new.below ≡ self.old.below }
    {
        let heads = self.top.len();
        if cell < heads {
            self.top[cell] = link;
        } else {
            self.under.set(cell - heads, link);
        }
    }

    /// On from a cell.
    #[inline(always)]
    fn step(&self, rows: &Rows<A>, key: &Key, left: u32, cell: usize) -> Step
        requires { left ≤ 32 }
        ensures { result ≡ ways.step (ways.key_at rows.now.items) self.now key.now left cell }
    {
        match self.cell_at(cell) {
            None => Step::Stops(Reached::Lost),
            Some(link) => match link.place() {
                None => Step::Stops(Reached::Vacant(cell)),
                Some(row) => self.at_row(rows, key, left, row),
            },
        }
    }

    /// Where the way of a key ends: never for want of bits, and after 33 rows at most.
    #[inline(always)]
    pub(crate) fn reach(&self, rows: &Rows<A>, key: &Key) -> Reached
        requires parted { (count : ℕ) × IsParted (ways.key_at rows.now.items) self.now count }
        ensures value { result ≡ ways.reached (ways.key_at rows.now.items) self.now key.now }
        ensures ends { ways.Ends result }
        ensures few { ways.rows_passed (ways.key_at rows.now.items) self.now key.now ≤ 33 }
        ensures bits { IsSmall key.now }
    {
        let mut cell = home(self.heads, key);
        let mut left = BITS;
        loop {
            match self.step(rows, key, left, cell) {
                Step::Stops(reached) => return reached,
                Step::Goes(next) => {
                    cell = next;
                    left -= 1;
                }
            }
        }
    }

    /// Opens the cells under a row, and gives the place of the first.
    #[cold]
    #[inline(never)]
    fn open(&mut self, row: usize) -> Result<usize, AllocError>
        requires { row < length self.old.below }
        ensures ok { OnOk result (self.new ≡ ways.opened self.old row) }
        ensures begin { IfOk result (λ begin. begin ≡ length self.old.cells) }
        ensures small { IfOk result (λ begin. begin < 2 ^ 32) }
        ensures err { OnErr result (ways.IsWider self.old self.new) }
    {
        let begin = self.top.len() + self.under.len();
        if begin >= PLACES {
            return Err(NO_PLACE);
        }
        widen(&mut self.under)?;
        self.below.set(row, Link::to(begin));
        Ok(begin)
    }

    /// A row more, which this cell names from now on.
    #[inline(always)]
    fn link(&mut self, cell: usize, row: usize) -> Result<(), AllocError>
        requires cell { cell < length self.old.cells }
        requires row { row < 2 ^ 32 - 1 }
        ensures ok { OnOk result (self.new ≡ ways.linked self.old cell row) }
        ensures err { OnErr result (self.new ≡ self.old) }
    {
        self.below.reserve()?;
        self.below.push_spare(Link::none());
        self.set_cell(cell, Link::to(row));
        Ok(())
    }

    /// Lets the keys whose way ends so lead to this row.
    #[inline(always)]
    pub(crate) fn add(&mut self, end: Reached, row: usize) -> Result<(), AllocError>
        requires ends { ways.IsEnd self.old end }
        requires free { ways.IsFree end }
        ensures stays { ways.Stays self.old self.new }
        ensures ok { OnOk result (ways.Leads self.old self.new end row) }
        ensures err { OnErr result (ways.StaysParted self.old self.new) }
    {
        if row >= PLACES {
            return Err(NO_PLACE);
        }
        match end {
            Reached::Vacant(cell) => self.link(cell, row),
            Reached::Bare(above, side) => {
                let begin = self.open(above)?;
                self.link(begin + side, row)
            }
            Reached::Row(_) | Reached::Lost => unreachable!(),
        }
    }

    /// Lets the key of a row lead to it.
    fn enter_row(&mut self, rows: &Rows<A>, row: usize) -> Result<(), AllocError>
        requires row { row < length rows.now.items }
        requires distinct { ways.AreDistinct rows.now.items }
        requires whole { ways.IsWhole rows.now.items self.old row }
        ensures { OnOk result (ways.IsWhole rows.now.items self.new (row + 1)) }
    {
        let end = self.reach(rows, &rows.read(row).0);
        self.add(end, row)
    }

    /// An index of these rows with so many heads.
    #[cold]
    #[inline(never)]
    pub(crate) fn over(rows: &Rows<A>, heads: u32, alloc: &A) -> Result<Index<A>, AllocError>
        requires enough { 16 ≤ heads }
        requires distinct { ways.AreDistinct rows.now.items }
        ensures { IfOk result (λ index. ways.IsWhole rows.now.items index (length rows.now.items)) }
    {
        let mut index = Index {
            heads,
            top: no_links(alloc.clone()?, heads as usize)?,
            under: Chunks::new(alloc.clone()?),
            below: Chunks::new(alloc.clone()?),
        };
        for row in 0..rows.len() {
            index.enter_row(rows, row)?;
        }
        Ok(index)
    }

    /// Whether there are as many rows as it has heads.
    pub(crate) fn is_full(&self, rows: &Rows<A>) -> bool {
        self.heads as usize <= rows.len()
    }

    /// How many heads an index for more rows has.
    pub(crate) fn more_heads(&self) -> u32
        requires { 16 ≤ self.now.heads }
        ensures { 16 ≤ result }
    {
        self.heads.saturating_mul(4)
    }
}
