//! A parsed tree apart from what it was parsed by and from.

ghost use Rattle.std.specs.Prelude.{◌≡◌, IfOk, slice_get, Some, ◌∷◌, [], ◌≤◌};
ghost use Rattle.ipg_mach_nodes.specs.declared.kid.Node.{Node};

use crate::parsed::Counts;
use crate::stack::LevelStack;
use ipg_mach_nodes::{RunId, Store};
use std::alloc::{AllocError, Allocator};
use std::marker::Model;

/// A tree by its nodes and its root, with what its parse counted and the memory of a walk over it. With tables and an input
/// it is a `Parsed`.
#[derive(Drop)]
pub struct Detached<A: Allocator> {
    store: Store<A>,
    root: RunId,
    counts: Counts,
    stack: LevelStack<A>,
}

impl<A: Allocator> Model for Detached<A> {
    ghost use Rattle.ipg_tree_walk.specs.Detached.{Apart};

    ghost Value = { Apart };

    ghost use Rattle.ipg_tree_walk.specs.Detached.{apart, HasRoom};

    ghost view = { λ d. apart d };

    ghost invariant = { λ d. HasRoom d };
}

/// How many levels lie in a node; 0 where there is none.
fn levels_at<A: Allocator + Clone + Drop>(store: &Store<A>, id: RunId) -> u32
    ensures { (node : Node) → slice_get store.now.nodes id.place ≡ Some (node ∷ []) → result ≡ node.levels }
{
    match store.node(id) {
        Some(node) => node.levels,
        None => 0,
    }
}

impl<A: Allocator + Clone + Drop> Detached<A> {
    /// A tree, with memory for a walk over it.
    pub fn new(
        alloc: A,
        store: Store<A>,
        root: RunId,
        counts: Counts,
    ) -> Result<Detached<A>, AllocError>
        ensures { IfOk result (λ d. d ≡ record { store = store; root = root; counts = counts }) }
    {
        let room = levels_at(&store, root);
        let stack = LevelStack::with_room(alloc, room)?;
        Ok(Detached {
            store,
            root,
            counts,
            stack,
        })
    }

    /// A tree with memory for a walk over it that was taken before.
    pub(crate) fn with_stack(
        store: Store<A>,
        root: RunId,
        counts: Counts,
        stack: LevelStack<A>,
    ) -> Detached<A>
        requires { (node : Node) → slice_get store.nodes root.place ≡ Some (node ∷ []) → node.levels ≤ stack.room }
        ensures { result ≡ record { store = store; root = root; counts = counts } }
    {
        Detached {
            store,
            root,
            counts,
            stack,
        }
    }

    /// Its parts, the memory of the walk among them.
    pub(crate) fn into_parts(self) -> (Store<A>, RunId, Counts, LevelStack<A>)
        ensures parts { record { store = result.0; root = result.1; counts = result.2 } ≡ self }
        ensures room { (node : Node) → slice_get result.0.nodes result.1.place ≡ Some (node ∷ []) → node.levels ≤ result.3.room }
    {
        let Detached {
            store,
            root,
            counts,
            stack,
        } = self;
        (store, root, counts, stack)
    }

    /// Its nodes. The memory of the walk is given back.
    pub fn into_store(self) -> Store<A>
        ensures { result ≡ self.store }
    {
        self.store
    }
}
