//! A parsed tree.

ghost use Rattle.std.specs.Prelude.{◌≡◌, ◌+◌, ◌<◌, ◌≤◌, ◌∷◌, [], ℕ, ℤ, List, false, ◌^◌, length, slice_get, Some, None, IfOk, IsSomeAnd, OnSome};
ghost use Rattle.ipg_core.specs.Environment.{value_at as find};
ghost use Rattle.ipg_core.specs.Part.{part as part_of};
ghost use Rattle.ipg_core.specs.Touch.{tree_ends};
ghost use Rattle.ipg_core.specs.Tree.{Tree, rule_of, attrs_of};
ghost use Rattle.ipg_mach_nodes.specs.declared.kid.Kid.{Kid as Row};
ghost use Rattle.ipg_mach_nodes.specs.declared.kid.Node.{Node};
ghost use Rattle.ipg_mach_nodes.specs.Stored.{Source, StandsTree, StandKids};
ghost use Rattle.ipg_mach_results.specs.Standing.{OfTree};
ghost use Rattle.ipg_tree_walk.specs.Visits.{Seen, visits, size_of, kids_in_tree};
ghost use Rattle.ipg_tree_walk.specs.Left.{Shows};
ghost use Rattle.ipg_tree_walk.specs.Parse.{AllLeft, Left, steps_left};
ghost use Rattle.ipg_tree_walk.specs.Falls.{wide};

use crate::bytes::part;
use crate::detached::Detached;
use crate::stack::LevelStack;
use crate::walk::{Visit, enter, root_visit, step};
use ipg_mach_nodes::{Kid, RunId, Store};
use ipg_mach_results::value_at;
use ipg_table::tables::Tables;
use std::alloc::{AllocError, Allocator};
use std::marker::Model;

/// What was counted in a parse: the bodies of global rules that ran, the answers that were taken from the memo, and the
/// most calls that were open at once.
#[derive(Clone, Copy, Debug, PartialEq, Eq)]
pub struct Counts {
    pub bodies: u64,
    pub hits: u64,
    pub deepest: u64,
}

/// Where a node begins and ends to touch bytes of its part.
#[derive(Clone, Copy, Debug, PartialEq, Eq)]
pub struct Ends {
    pub start: u32,
    pub end: u32,
}

/// A parsed tree with what it was parsed by and from, and a walk over it.
#[derive(Drop)]
pub struct Parsed<'a, A: Allocator> {
    tables: &'a Tables,
    input: &'a [u8],
    store: Store<A>,
    root: RunId,
    counts: Counts,
    stack: LevelStack<A>,
    is_ahead: bool,
}

impl<'a, A: Allocator> Model for Parsed<'a, A> {
    ghost use Rattle.ipg_tree_walk.specs.Parse.{Walked};

    ghost Value = { Walked };

    ghost use Rattle.ipg_tree_walk.specs.Parse.{walked, IsRoomy};

    ghost view = { λ p. walked p };

    ghost invariant = { λ p. IsRoomy p };
}

impl<'a, A: Allocator + Clone + Drop> Parsed<'a, A> {
    /// A parsed tree, with all of a walk ahead. Nothing else that is asked of it takes memory.
    pub fn new(
        alloc: A,
        tables: &'a Tables,
        input: &'a [u8],
        store: Store<A>,
        root: RunId,
        counts: Counts,
    ) -> Result<Parsed<'a, A>, AllocError>
        ensures parse { IfOk result (λ p. p.parse ≡ record { tables = tables.now; input = input.now; store = store; root = root; counts = counts }) }
        ensures left { IfOk result (λ p. AllLeft p) }
    {
        Ok(Parsed::attach(tables, input, Detached::new(alloc, store, root, counts)?))
    }

    /// The tree with what it was parsed by and from. Takes no memory.
    pub fn attach(tables: &'a Tables, input: &'a [u8], tree: Detached<A>) -> Parsed<'a, A>
        ensures parse { result.parse ≡ record { tables = tables.now; input = input.now; store = tree.store; root = tree.root; counts = tree.counts } }
        ensures left { AllLeft result }
    {
        let (store, root, counts, stack) = tree.into_parts();
        Parsed {
            tables,
            input,
            store,
            root,
            counts,
            stack,
            is_ahead: true,
        }
    }

    /// The tree apart, with the memory of its walk. Takes none.
    pub fn detach(self) -> Detached<A>
        ensures { result ≡ record { store = self.entry.parse.store; root = self.entry.parse.root; counts = self.entry.parse.counts } }
    {
        let Parsed {
            store,
            root,
            counts,
            stack,
            ..
        } = self;
        Detached::with_stack(store, root, counts, stack)
    }

    /// The tables of the grammar that was parsed by.
    pub fn tables(&self) -> &'a Tables
        ensures { result.now ≡ self.now.parse.tables }
    {
        self.tables
    }

    /// The node of the first rule.
    pub fn root(&self) -> RunId
        ensures { result ≡ self.now.parse.root }
    {
        self.root
    }

    /// What the parse counted.
    pub fn counts(&self) -> Counts
        ensures { result ≡ self.now.parse.counts }
    {
        self.counts
    }

    /// The rule of a node; None where there is no node.
    pub fn rule(&self, node: RunId) -> Option<u32>
        ensures some { OfTree self.now.parse.store node (λ one. result ≡ Some (rule_of one)) }
        ensures none { length self.now.parse.store.nodes ≤ node.place → result ≡ None }
    {
        match self.store.node(node) {
            Some(node) => Some(node.head.rule),
            None => None,
        }
    }

    /// How many bytes the part of a node has; 0 where there is no node.
    pub fn size(&self, node: RunId) -> u32
        ensures { OfTree self.now.parse.store node (λ one. size_of one ≡ result) }
    {
        match self.store.node(node) {
            Some(node) => node.head.size,
            None => 0,
        }
    }

    /// Where a node begins and ends to touch bytes of its part.
    pub fn ends(&self, node: RunId) -> Ends
        ensures { OfTree self.now.parse.store node (λ one. record { start = result.start; end = result.end } ≡ tree_ends one) }
    {
        match self.store.node(node) {
            Some(node) => Ends {
                start: node.head.start,
                end: node.head.end,
            },
            None => Ends { start: 0, end: 0 },
        }
    }

    /// The attributes of a node with their values, in text order.
    pub fn attrs(&self, node: RunId) -> &[(u32, i64)]
        ensures { OfTree self.now.parse.store node (λ one. result.now ≡ attrs_of one) }
    {
        match self.store.node(node) {
            Some(node) => self.store.attrs(node.attrs),
            None => &[],
        }
    }

    /// An attribute of a node, by its number; None where its alternative doesn't set that.
    pub fn attr(&self, node: RunId, name: u32) -> Option<i64>
        ensures { OfTree self.now.parse.store node (λ one. result ≡ find (attrs_of one) name) }
    {
        value_at(self.attrs(node), name)
    }

    /// The bytes of a node whose part begins at this place of the input.
    pub fn bytes(&self, node: RunId, at: u32) -> &'a [u8]
        ensures { OfTree self.now.parse.store node (λ one. result.now ≡ part_of self.now.parse.input at (at + size_of one)) }
    {
        let from = u64::from(at);
        self.part(from, from + u64::from(self.size(node)))
    }

    /// The bytes of the input from a place up to another.
    pub fn part(&self, from: u64, to: u64) -> &'a [u8]
        ensures { result.now ≡ part_of self.now.parse.input from to }
    {
        part(self.input, from, to)
    }

    /// The children of a node.
    pub fn kids(&self, node: RunId) -> &[Kid]
        ensures { (src : Source) (at : ℕ) (one : Tree) → StandsTree src self.now.parse.store at node one
            → StandKids src self.now.parse.store at result.now (kids_in_tree one) }
    {
        match self.store.node(node) {
            Some(node) => self.store.kids(node.kids),
            None => &[],
        }
    }

    /// A list of attributes with their values, by the place that its node names.
    pub fn attrs_at(&self, list: RunId) -> &[(u32, i64)]
        ensures { (attrs : List (ℕ × ℤ)) → slice_get self.now.parse.store.attrs list.place ≡ Some attrs → result.now ≡ attrs }
    {
        self.store.attrs(list)
    }

    /// The items of an array or a repetition, by the place that its row names.
    pub fn items(&self, list: RunId) -> &[Kid]
        ensures { (rows : List Row) → slice_get self.now.parse.store.kids list.place ≡ Some rows → result.now ≡ rows }
    {
        self.store.kids(list)
    }

    /// Begins the walk anew.
    pub fn rewind(&mut self)
        ensures parse { self.new.parse ≡ self.old.parse }
        ensures left { AllLeft self.new }
    {
        self.is_ahead = true;
    }

    /// The visit of the root, with what lies in it ahead.
    #[cold]
    #[inline(never)]
    fn begin(&mut self) -> Visit
        ensures parse { self.new.parse ≡ self.old.parse }
        ensures begun { self.new.is_ahead ≡ false }
        ensures left { (src : Source) (one : Tree) (first : Seen) (more : List Seen) → StandsTree src self.old.parse.store 0 self.old.parse.root one
            → visits one ≡ first ∷ more → Shows src self.old.parse.store result first × Left src self.new more }
        ensures ends { steps_left self.new < wide ^ (self.old.stack.room + 1) }
    {
        let visit = root_visit(self.root, self.store.node(self.root));
        self.is_ahead = false;
        self.stack.clear();
        enter(&mut self.stack, visit.kid, visit.node, 0, 0);
        visit
    }

    /// The next visit of the walk; None at the end.
    #[inline(always)]
    pub fn next(&mut self) -> Option<Visit>
        ensures parse { self.new.parse ≡ self.old.parse }
        ensures end { (src : Source) → Left src self.old [] → result ≡ None }
        ensures more { (src : Source) (one : Seen) (more : List Seen) → Left src self.old (one ∷ more)
            → IsSomeAnd result (λ visit. Shows src self.old.parse.store visit one) × Left src self.new more }
        ensures ends { OnSome result (steps_left self.new < steps_left self.old) }
    {
        if self.is_ahead {
            return Some(self.begin());
        }
        step(&self.store, &mut self.stack)
    }
}
