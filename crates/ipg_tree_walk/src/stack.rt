//! The levels of a walk.

ghost use Rattle.std.specs.Prelude.{◌≡◌, ◌∷◌, [], ◌<◌, ◌≤◌, ◌^◌, length, IfOk, MatchOption};
ghost use Rattle.ipg_tree_walk.specs.Stack.{IsLast, Replaces, Leaves};

use ipg_region::RunId;
use std::alloc::{AllocError, Allocator};
use std::marker::Model;

/// A list of children or items with the next of them that is to be visited, and the part that they lie in: the place of the
/// input where it begins, and how many bytes it has. There is no list where none of them is left.
#[derive(Clone, Copy, Debug, PartialEq, Eq)]
pub struct Level {
    pub list: Option<RunId>,
    pub next: usize,
    pub at: u64,
    pub size: u32,
}

/// Levels that lie within one another, in memory that was taken for `room` of them.
#[derive(Drop)]
pub(crate) struct LevelStack<A: Allocator> {
    levels: Vec<Level, A>,
    room: u32,
}

impl<A: Allocator> Model for LevelStack<A> {
    ghost use Rattle.ipg_tree_walk.specs.Stack.{Stacked};

    ghost Value = { Stacked };

    ghost use Rattle.ipg_tree_walk.specs.Stack.{stacked, IsRoomy};

    ghost view = { λ s. stacked s };

    ghost invariant = { λ s. IsRoomy s };
}

impl<A: Allocator + Clone + Drop> LevelStack<A> {
    /// No levels, and room for so many.
    pub(crate) fn with_room(alloc: A, room: u32) -> Result<LevelStack<A>, AllocError>
        ensures { IfOk result (λ stack. stack ≡ record { levels = []; room = room }) }
    {
        Ok(LevelStack {
            levels: Vec::with_capacity(alloc, room as usize)?,
            room,
        })
    }

    pub(crate) fn len(&self) -> u64
        ensures value { result ≡ length self.now.levels }
        ensures small { result < 2 ^ 63 }
        ensures room { self.now.room < 2 ^ 32 }
    {
        let _room = self.room;
        self.levels.len() as u64
    }

    /// Puts a level into the others, where there is room for it.
    pub(crate) fn push(&mut self, level: Level)
        ensures room { self.new.room ≡ self.old.room }
        ensures pushed { length self.old.levels < self.old.room → self.new.levels ≡ level ∷ self.old.levels }
        ensures full { self.old.room ≤ length self.old.levels → self.new.levels ≡ self.old.levels }
    {
        if self.levels.len() < self.room as usize {
            self.levels.push_reserved(level);
        }
    }

    /// The innermost level; None where there is none.
    pub(crate) fn last(&self) -> Option<Level>
        ensures { MatchOption result (self.now.levels ≡ []) (λ level. IsLast level self.now.levels) }
    {
        self.levels.last().copied()
    }

    /// Puts a level in the place of the innermost one.
    pub(crate) fn replace(&mut self, level: Level)
        ensures room { self.new.room ≡ self.old.room }
        ensures replaced { Replaces level self.old.levels self.new.levels }
    {
        if let Some(_) = self.levels.pop() {
            self.levels.push_reserved(level);
        }
    }

    /// Takes the innermost level away.
    pub(crate) fn leave(&mut self)
        ensures room { self.new.room ≡ self.old.room }
        ensures left { Leaves self.old.levels self.new.levels }
    {
        let _ = self.levels.pop();
    }

    pub(crate) fn clear(&mut self)
        ensures { self.new ≡ record self.old { levels = [] } }
    {
        self.levels.clear();
    }
}
