//! A store of nodes.

ghost use Rattle.std.specs.Prelude.{◌≡◌, ◌≤◌, ℕ, ℤ, List, ◌∷◌, [], length, take, slice_get, None, Some, IfOk, OnOk, OnErr};
ghost use Rattle.ipg_mach_nodes.specs.Stored.{nothing, with_list, with_node, before, IsEnd};

use crate::kid::{Head, Kid, Node};
use ipg_region::{Cells, Region, RunId};
use std::alloc::{AllocError, Allocator};
use std::marker::Model;

/// An end of a store, to which it can be cut.
#[derive(Clone, Copy, Debug, PartialEq, Eq)]
pub struct Mark {
    pub nodes: RunId,
    pub kids: RunId,
    pub attrs: RunId,
}

/// Nodes, lists of children or items, and lists of attributes with their values.
#[derive(Drop)]
pub struct Store<A: Allocator> {
    nodes: Cells<Node, A>,
    kids: Region<Kid, A>,
    attrs: Region<(u32, i64), A>,
}

impl<A: Allocator> Model for Store<A> {
    ghost use Rattle.ipg_mach_nodes.specs.Stored.{Stored, each};

    ghost Value = { Stored };

    ghost view = { λ a. record { nodes = each a.nodes.items; kids = a.kids.runs; attrs = a.attrs.runs } };
}

/// So many rows at least are asked for at once.
const CHUNK: u32 = 256;

/// 2^32 rows count as want of memory.
const TOO_MANY_ROWS: AllocError = AllocError;

/// A number of rows.
fn count(rows: usize) -> Result<u32, AllocError>
    ensures { IfOk result (λ count. count ≡ rows) }
{
    match u32::try_from(rows) {
        Ok(count) => Ok(count),
        Err(_) => Err(TOO_MANY_ROWS),
    }
}

/// Takes the runs from a place on away, if there are any.
fn cut_to<T: Copy, A: Allocator + Clone + Drop>(region: &mut Region<T, A>, to: RunId)
    ensures { region.new.runs ≡ take to.place region.old.runs }
{
    if to.place < region.mark().place {
        region.cut(to);
    }
}

impl<A: Allocator + Clone + Drop> Store<A> {
    /// A store without nodes.
    pub fn new(alloc: A) -> Result<Store<A>, AllocError>
        ensures { IfOk result (λ store. store ≡ nothing) }
    {
        let nodes = Cells::new(alloc.clone()?)?;
        let kids = Region::new(alloc.clone()?, CHUNK)?;
        let attrs = Region::new(alloc, CHUNK)?;
        Ok(Store { nodes, kids, attrs })
    }

    /// Where the store ends.
    pub fn mark(&self) -> Mark
        ensures { IsEnd self.now result }
    {
        Mark {
            nodes: self.nodes.mark(),
            kids: self.kids.mark(),
            attrs: self.attrs.mark(),
        }
    }

    /// Takes what was stored behind the mark away.
    pub fn cut(&mut self, mark: Mark)
        ensures { self.new ≡ before self.old mark }
    {
        self.nodes.cut(mark.nodes);
        cut_to(&mut self.kids, mark.kids);
        cut_to(&mut self.attrs, mark.attrs);
    }

    /// Stores a list of children or items, and gives its place.
    pub fn add_list(&mut self, kids: &[Kid]) -> Result<RunId, AllocError>
        ensures id { IfOk result (λ id. id.place ≡ length self.old.kids) }
        ensures stored { OnOk result (self.new ≡ with_list self.old kids.now) }
        ensures err { OnErr result (self.new ≡ self.old) }
    {
        self.kids.place(kids)
    }

    /// Stores a node with its levels, attributes and children, and gives its place. Where memory runs out nothing is stored.
    pub fn add_node(
        &mut self,
        head: Head,
        levels: u32,
        attrs: &[(u32, i64)],
        kids: &[Kid],
    ) -> Result<RunId, AllocError>
        ensures id { IfOk result (λ id. id.place ≡ length self.old.nodes) }
        ensures stored { OnOk result (self.new ≡ with_node self.old head levels attrs.now kids.now) }
        ensures err { OnErr result (self.new ≡ self.old) }
    {
        self.attrs.reserve(1, count(attrs.len())?)?;
        self.kids.reserve(1, count(kids.len())?)?;
        self.nodes.reserve()?;
        let attrs = self.attrs.place_spare(attrs);
        let kids = self.kids.place_spare(kids);
        Ok(
            self.nodes.place_spare(Node {
                head,
                levels,
                attrs,
                kids,
            }),
        )
    }

    /// The node at a place; None where there is none.
    pub fn node(&self, id: RunId) -> Option<Node>
        ensures some { (node : Node) → slice_get self.now.nodes id.place ≡ Some (node ∷ []) → result ≡ Some node }
        ensures none { length self.now.nodes ≤ id.place → result ≡ None }
    {
        self.nodes.get(id)
    }

    /// A list of children or items; empty where there is none.
    pub fn kids(&self, list: RunId) -> &[Kid]
        ensures { (kids : List Kid) → slice_get self.now.kids list.place ≡ Some kids → result.now ≡ kids }
    {
        match self.kids.get(list) {
            Some(kids) => kids,
            None => &[],
        }
    }

    /// A list of attributes with their values; empty where there is none.
    pub fn attrs(&self, list: RunId) -> &[(u32, i64)]
        ensures { (attrs : List (ℕ × ℤ)) → slice_get self.now.attrs list.place ≡ Some attrs → result.now ≡ attrs }
    {
        match self.attrs.get(list) {
            Some(attrs) => attrs,
            None => &[],
        }
    }
}
