//! The evaluation at work.

ghost use Rattle.std.specs.Prelude.{◌≡◌, ◌≢◌, ◌+◌, ◌++◌, ◌∷◌, [], ℕ, List, Result, IfOk, OnOk, Some, None};
ghost use Rattle.ipg_core.specs.Tree.{Tree};
ghost use Rattle.ipg_core.specs.Run.{Stop};
ghost use Rattle.ipg_memo.specs.declared.memo.Key.{Key};
ghost use Rattle.ipg_mach_moves.specs.Moves as moves;
ghost use Rattle.ipg_mach_moves.specs.Moves.{OpenCall, Evaluation, Key as CallKey, Works, Holds, works, asks, asked_key, returns, turned, move, silent};
ghost use Rattle.ipg_mach_moves.specs.Moves.{always, at_hand, known_of, ended};
ghost use Rattle.ipg_mach_nodes.specs.Stored.{Source, before};
ghost use Rattle.ipg_mach.specs.Known.{IsEntryOf};
ghost use Rattle.ipg_mach.specs.declared.frame.HeldAnswer.{HeldAnswer};
ghost use Rattle.ipg_mach.specs.declared.frame.HeldAnswer.TheVariants as held;
ghost use Rattle.ipg_mach.specs.Turning.{turn_of, HasGone};
ghost use Rattle.ipg_mach.specs.Stage.{staged, kid_of, key_in, IsAt, IsAsking};

use crate::counted::{with_known, with_opened};
use crate::frame::{Frame, HeldAnswer, NewCall};
use crate::known::known;
use crate::machine::Turn;
use crate::reader::Reader;
use crate::top::Top;
use ipg_mach_node::laws::grows_from_before;
use ipg_mach_nodes::Kid;
use ipg_mach_nodes::laws::trees_stay;
use ipg_mach_term::AtHand;
use ipg_memo::{Entry, Key, Memo};
use ipg_region::Stack;
use ipg_tree_walk::Counts;
use std::alloc::{AllocError, Allocator};

/// The highest call, the frames of those that wait for it, what is known, and what has been counted.
#[derive(Drop)]
pub struct Work<'m, A: Allocator> {
    pub reader: Reader<'m, A>,
    pub top: Top<'m, A>,
    pub frames: Stack<Frame<'m>, A>,
    pub memo: Option<Memo<A>>,
    pub counts: Counts,
}

/// 2^32 of what is counted count as want of memory.
const PAST_32_BITS: AllocError = AllocError;

/// A place further on.
fn further(from: u32, by: u32) -> Result<u32, AllocError>
    ensures { IfOk result (λ place. place ≡ from + by) }
{
    from.checked_add(by).ok_or(PAST_32_BITS)
}

/// What is known of a call, as a child on an interval of the part.
fn known_kid(entry: Entry, from: u32, to: u32) -> Option<Kid>
    ensures { result ≡ kid_of entry from to }
{
    match entry {
        Entry::Node(id) => Some(Kid::Node { id, from, to }),
        Entry::NoTree => None,
    }
}

impl<'m, A: Allocator + Clone + Drop> Work<'m, A> {
    /// The call that the highest one asks for is known: its answer is taken.
    fn take_known(&mut self, entry: Entry, from: u32, to: u32) -> Result<(), AllocError>
        ensures { (src : Source) (e : Evaluation) (c : OpenCall) (rule : ℕ) (key : Key) (answer : Result Tree Stop)
            (q : IsAsking self.old.top.frame c rule from to) → IsAt src (staged self.old) e → e.highest ≡ Works c
            → key.from ≡ self.old.top.frame.from + from → key.to ≡ self.old.top.frame.from + to
            → IsEntryOf src (before self.old.top.store self.old.top.floor) key (Some entry) (Some answer)
            → OnOk result (IsAt src (staged self.new) (asks e c q.call.ask (Some answer))) }
    {
        grows_from_before();
        trees_stay();
        self.counts = with_known(self.counts);
        let adv = self
            .top
            .answered(self.reader.tables, known_kid(entry, from, to));
        self.top.turned(self.reader.tables, adv)
    }

    /// The call that the highest one asks for is opened above it.
    fn open(&mut self, key: Key) -> Result<(), AllocError>
        ensures { (src : Source) (e : Evaluation) (c : OpenCall) (from to : ℕ) (q : IsAsking self.old.top.frame c key.rule from to)
            → IsAt src (staged self.old) e → e.highest ≡ Works c → key.from ≡ self.old.top.frame.from + from → key.to ≡ self.old.top.frame.from + to
            → OnOk result (IsAt src (staged self.new) (asks e c q.call.ask None)) }
    {
        let holder = self.reader.tables.holder(key.rule);
        let outer = self.top.outer(holder);
        self.frames.push(&self.top.frame)?;
        self.counts = with_opened(self.counts, holder, self.frames.len() + 1);
        self.top.open(
            self.reader.tables,
            NewCall {
                rule: key.rule,
                from: key.from,
                to: key.to,
                outer,
            },
        )
    }

    /// The highest call asks for a call on an interval of its part.
    fn ask(&mut self, rule: u32, from: u32, to: u32) -> Result<(), AllocError>
        ensures { (src : Source) (e : Evaluation) (c : OpenCall) (q : IsAsking self.old.top.frame c rule from to) → IsAt src (staged self.old) e
            → e.highest ≡ Works c → OnOk result (IsAt src (staged self.new) (asks e c q.call.ask (known_of e.known (asked_key c q.call.ask)))) }
    {
        let at = self.top.frame.from;
        let key = Key {
            rule,
            from: further(at, from)?,
            to: further(at, to)?,
        };
        match known(&self.memo, key) {
            Some(entry) => self.take_known(entry, from, to),
            None => self.open(key),
        }
    }

    /// The highest call works on its term at hand.
    fn work(&mut self) -> Result<(), AllocError>
        ensures { (src : Source) (e : Evaluation) (c : OpenCall) → IsAt src (staged self.old) e → e.highest ≡ Works c
            → OnOk result (IsAt src (staged self.new) (works e c (at_hand silent c).answer (at_hand silent c).asked)) }
    {
        match self.reader.at_hand(&self.top) {
            AtHand::Makes(adv) => self.top.turned(self.reader.tables, adv),
            AtHand::Calls { rule, from, to } => self.ask(rule, from, to),
        }
    }

    /// The highest call is taken away, and its answer goes to its caller.
    #[inline(never)]
    fn come_back(&mut self, entry: Entry) -> Result<(), AllocError>
        ensures { (src : Source) (e : Evaluation) (c : OpenCall) (lower : List OpenCall) (key : CallKey) (answer : Result Tree Stop)
            → IsAt src (staged self.old) e → e.highest ≡ Holds key answer → e.lower ≡ c ∷ lower
            → IsEntryOf src self.old.top.store (key_in self.old.top.frame) (Some entry) (Some answer)
            → OnOk result (IsAt src (staged self.new)
            (record e {
              lower = lower;
              highest = turned c (at_hand (always answer) c).answer;
              known = moves.learn c.frame.grammar e.known key answer;
            })) }
    {
        let key = Key {
            rule: self.top.frame.rule,
            from: self.top.frame.from,
            to: self.top.frame.to,
        };
        self.top
            .remember(self.reader.tables, &mut self.memo, key, entry)?;
        self.top.resume(self.reader.tables, &mut self.frames);
        let at = self.top.frame.from;
        let from = key.from.saturating_sub(at);
        let to = key.to.saturating_sub(at);
        let adv = self
            .top
            .answered(self.reader.tables, known_kid(entry, from, to));
        self.top.turned(self.reader.tables, adv)
    }

    /// The highest call holds an answer.
    fn back(&mut self, entry: Entry) -> Result<(), AllocError>
        ensures { (src : Source) (e : Evaluation) (key : CallKey) (answer : Result Tree Stop) → IsAt src (staged self.old) e
            → e.highest ≡ Holds key answer → IsEntryOf src self.old.top.store (key_in self.old.top.frame) (Some entry) (Some answer)
            → OnOk result (IsAt src (staged self.new) (returns e key answer e.lower)) }
    {
        if self.frames.is_empty() {
            return Ok(());
        }
        self.come_back(entry)
    }

    /// The highest call holds this answer: it goes to its caller.
    fn give(&mut self, held: HeldAnswer) -> Result<(), AllocError>
        ensures { (src : Source) (e : Evaluation) → IsAt src (staged self.old) e → self.old.top.answer ≡ Some held
            → OnOk result (IsAt src (staged self.new) (move e)) }
    {
        match held {
            HeldAnswer::Node(id) => self.back(Entry::Node(id)),
            HeldAnswer::NoTree => self.back(Entry::NoTree),
            HeldAnswer::Range => Ok(()),
        }
    }

    /// One move of the open evaluation; none where it has ended.
    #[inline(always)]
    fn step(&mut self) -> Result<(), AllocError>
        ensures { (src : Source) (e : Evaluation) → IsAt src (staged self.old) e → OnOk result (IsAt src (staged self.new) (move e)) }
    {
        match self.top.answer {
            None => self.work(),
            Some(held) => self.give(held),
        }
    }

    /// At most so many moves: as many, or those up to the evaluation's end.
    pub fn go(&mut self, most: u64) -> Result<Turn, AllocError>
        ensures { (src : Source) (e : Evaluation) → IsAt src (staged self.old) e
            → IfOk result (λ turn. HasGone src (staged self.new) e most turn) }
    {
        let mut left = most;
        while left > 0 {
            self.step()?;
            left -= 1;
            if let Turn::Done = self.turn() {
                return Ok(Turn::Done);
            }
        }
        Ok(self.turn())
    }

    /// Whether the evaluation goes on.
    pub fn turn(&self) -> Turn
        ensures { (src : Source) (e : Evaluation) → IsAt src (staged self.now) e → result ≡ turn_of (ended e) }
    {
        match self.top.answer {
            None => Turn::More,
            Some(held) => self.turn_with(held),
        }
    }

    /// Whether it goes on where the highest call holds this answer.
    fn turn_with(&self, held: HeldAnswer) -> Turn
        ensures { (src : Source) (e : Evaluation) → IsAt src (staged self.now) e → self.now.top.answer ≡ Some held → result ≡ turn_of (ended e) }
    {
        match held {
            HeldAnswer::Range => Turn::Done,
            HeldAnswer::NoTree => self.turn_below(),
            HeldAnswer::Node(_) => self.turn_below(),
        }
    }

    /// Whether a call waits for the highest one.
    fn turn_below(&self) -> Turn
        ensures { (src : Source) (e : Evaluation) (one : HeldAnswer) → IsAt src (staged self.now) e → self.now.top.answer ≡ Some one → one ≢ held.Range
            → result ≡ turn_of (ended e) }
    {
        if self.frames.is_empty() {
            Turn::Done
        } else {
            Turn::More
        }
    }
}
