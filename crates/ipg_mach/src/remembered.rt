//! Answers that are remembered, and what is kept for them.

ghost use Rattle.std.specs.Prelude.{◌≡◌, Option, Some, None, Result, IfOk, OnOk};
ghost use Rattle.ipg_core.specs.Grammar.{Grammar, rule_at, holder_of};
ghost use Rattle.ipg_core.specs.Tree.{Tree};
ghost use Rattle.ipg_core.specs.Run.{Stop};
ghost use Rattle.ipg_mach_moves.specs.Moves as moves;
ghost use Rattle.ipg_mach_moves.specs.Moves.{Known};
ghost use Rattle.ipg_mach_nodes.specs.Stored.{Source, IsMark, before};
ghost use Rattle.ipg_table.specs.Rows.{StandFor};
ghost use Rattle.ipg_mach.specs.Calls.{shown};
ghost use Rattle.ipg_mach.specs.Known.{key_of, IsEntryOf, IsKnown};
ghost use Rattle.ipg_mach.specs.Stage.{IsRaised, Remembers};

use crate::known::learn;
use crate::top::Top;
use ipg_mach_node::laws::grows_from_before;
use ipg_mach_nodes::laws::trees_stay;
use ipg_mach_nodes::{Mark, Store};
use ipg_memo::{Entry, Key, Memo};
use ipg_table::tables::Tables;
use std::alloc::{AllocError, Allocator};

/// Up to where the store is kept with this entry: a node that is remembered stays.
fn raised<A: Allocator + Clone + Drop>(store: &Store<A>, floor: Mark, entry: Entry) -> Mark
    ensures { IsRaised store.now floor entry result }
{
    match entry {
        Entry::Node(_) => store.mark(),
        Entry::NoTree => floor,
    }
}

/// The answer of a global rule is remembered, where there is a memo. Gives up to where the store is kept.
fn remember_global<A: Allocator + Clone + Drop>(
    store: &Store<A>,
    floor: Mark,
    memo: &mut Option<Memo<A>>,
    key: Key,
    entry: Entry,
) -> Result<Mark, AllocError>
    ensures { (src : Source) (g : Grammar) (known : Option Known) (answer : Result Tree Stop) → holder_of (rule_at g key.rule) ≡ None
        → IsMark store.now floor → IsKnown src (before store.now floor) memo.old known → IsEntryOf src store.now key (Some entry) (Some answer)
        → IfOk result (λ kept. Remembers src store.now kept memo.new (moves.learn g known (key_of key) answer)) }
{
    trees_stay();
    grows_from_before();
    if memo.is_none() {
        return Ok(floor);
    }
    learn(memo, None, key, entry)?;
    Ok(raised(store, floor, entry))
}

/// The answer of a call is remembered, where its rule is global and there is a memo. Gives up to where the store is kept.
fn remember<A: Allocator + Clone + Drop>(
    tables: &Tables,
    store: &Store<A>,
    floor: Mark,
    memo: &mut Option<Memo<A>>,
    key: Key,
    entry: Entry,
) -> Result<Mark, AllocError>
    ensures { (src : Source) (g : Grammar) (known : Option Known) (answer : Result Tree Stop) → StandFor tables.now g → IsMark store.now floor
        → IsKnown src (before store.now floor) memo.old known → IsEntryOf src store.now key (Some entry) (Some answer)
        → IfOk result (λ kept. Remembers src store.now kept memo.new (moves.learn g known (key_of key) answer)) }
{
    match tables.holder(key.rule) {
        Some(_) => Ok(floor),
        None => remember_global(store, floor, memo, key, entry),
    }
}

impl<'m, A: Allocator + Clone + Drop> Top<'m, A> {
    /// The answer of a call is remembered, where its rule is global and there is a memo; its node stays from then on.
    pub(crate) fn remember(
        &mut self,
        tables: &Tables,
        memo: &mut Option<Memo<A>>,
        key: Key,
        entry: Entry,
    ) -> Result<(), AllocError>
        ensures remembers { (src : Source) (g : Grammar) (known : Option Known) (answer : Result Tree Stop) → StandFor tables.now g
            → IsMark self.old.store self.old.floor → IsKnown src (before self.old.store self.old.floor) memo.old known
            → IsEntryOf src self.old.store key (Some entry) (Some answer)
            → OnOk result (Remembers src self.old.store self.new.floor memo.new (moves.learn g known (key_of key) answer)) }
        ensures top { shown self.new ≡ record (shown self.old) { floor = self.new.floor } }
    {
        self.floor = remember(tables, &self.store, self.floor, memo, key, entry)?;
        Ok(())
    }
}
