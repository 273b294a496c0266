//! A parse over what is kept, and what is kept then.

ghost use Rattle.std.specs.Prelude.{◌≡◌, ◌≤◌, ◌^◌, ℕ, List, length, Option, Some, None, Result, IfOk, OnOk};
ghost use Rattle.ipg_core.specs.Grammar.{Grammar};
ghost use Rattle.ipg_core.specs.Tree.{Tree as AnyTree};
ghost use Rattle.ipg_core.specs.Run.{Stop};
ghost use Rattle.ipg_core.specs.Meaning.{Means};
ghost use Rattle.ipg_mach_moves.specs.Moves.{Evaluation, Known, Tally, known_of, learn};
ghost use Rattle.ipg_mach_moves.specs.Laws.{AreRight};
ghost use Rattle.ipg_mach_nodes.specs.Stored.{Source};
ghost use Rattle.ipg_table.specs.Rows.{StandFor};
ghost use Rattle.ipg_mach.specs.Counted.{IsTally};
ghost use Rattle.ipg_mach.specs.Known.{IsEntryOf, IsKnown, key_of};
ghost use Rattle.ipg_mach.specs.Outcome.{Ends};
ghost use Rattle.ipg_mach.specs.Stage.{staged, source, IsAt};
ghost use Rattle.ipg_mach.specs.Verdict.{first_call, IsVerdict, ComesTo, HadToRun};

use crate::frame::HeldAnswer;
use crate::kept::Kept;
use crate::known::{known, learn};
use crate::machine::{Machine, Stopped, Turn};
use ipg_core::laws::heights_agree;
use ipg_mach_moves::laws::{ends_only_so, stays_right};
use ipg_memo::{Entry, Key};
use ipg_region::RunId;
use ipg_table::tables::Tables;
use ipg_tree_walk::Counts;
use std::alloc::{AllocError, Allocator};

/// What a parse comes to, with what was counted, and what is kept then: all that was known, and each answer of a global rule
/// that was found. Where a value left 64 bits, nothing is.
#[derive(Drop)]
pub enum Verdict<A: Allocator> {
    /// The tree stands at this node of what is kept.
    Tree {
        root: RunId,
        counts: Counts,
        kept: Kept<A>,
    },
    NoTree {
        counts: Counts,
        kept: Kept<A>,
    },
    Range {
        counts: Counts,
    },
}

/// 2^64 moves count as want of memory.
const TOO_MANY_MOVES: AllocError = AllocError;

/// Moves until the evaluation has ended.
fn run_to_end<'m, A: Allocator + Clone + Drop>(
    machine: &mut Machine<'m, A>,
) -> Result<(), AllocError>
    ensures { (src : Source) (e : Evaluation) → IsAt src (staged machine.old.work) e → OnOk result (Ends src (staged machine.new.work) e) }
{
    match machine.go(u64::MAX)? {
        Turn::Done => Ok(()),
        Turn::More => Err(TOO_MANY_MOVES),
    }
}

/// The first rule on the whole input, as a memo keys it.
fn first_key(input: &[u8]) -> Key
    requires { length input.now ≤ 2 ^ 30 }
    ensures { key_of result ≡ first_call input.now }
{
    Key {
        rule: 0,
        from: 0,
        to: input.len() as u32,
    }
}

/// The verdict where the answer of the first rule is this entry.
fn verdict_with<A: Allocator + Clone + Drop>(
    entry: Entry,
    counts: Counts,
    kept: Kept<A>,
) -> Verdict<A>
    ensures { (src : Source) (n : ℕ) (answer : Result AnyTree Stop) (tally : Tally) (known : Option Known)
        → IsEntryOf src kept.store (record { rule = 0; from = 0; to = n }) (Some entry) (Some answer) → IsTally counts tally
        → IsKnown src kept.store kept.memo known → IsVerdict src n result answer tally known }
{
    match entry {
        Entry::Node(root) => Verdict::Tree { root, counts, kept },
        Entry::NoTree => Verdict::NoTree { counts, kept },
    }
}

/// The answer of the first rule was known.
fn verdict_known<A: Allocator + Clone + Drop>(entry: Entry, kept: Kept<A>) -> Verdict<A>
    ensures { (src : Source) (n : ℕ) (answer : Result AnyTree Stop) (known : Option Known)
        → IsEntryOf src kept.store (record { rule = 0; from = 0; to = n }) (Some entry) (Some answer) → IsKnown src kept.store kept.memo known
        → IsVerdict src n result answer (record { bodies = 0; hits = 1; deepest = 0 }) known }
{
    let counts = Counts {
        bodies: 0,
        hits: 1,
        deepest: 0,
    };
    verdict_with(entry, counts, kept)
}

/// The answer of the first rule was found, and is kept too.
fn verdict_found<A: Allocator + Clone + Drop>(
    tables: &Tables,
    key: Key,
    entry: Entry,
    counts: Counts,
    kept: Kept<A>,
) -> Result<Verdict<A>, AllocError>
    requires { (key.rule ≡ 0) × (key.from ≡ 0) }
    ensures { IfOk result (λ verdict. (src : Source) (g : Grammar) (answer : Result AnyTree Stop) (tally : Tally) (known : Option Known)
        → StandFor tables.now g → IsEntryOf src kept.store key (Some entry) (Some answer) → IsTally counts tally
        → IsKnown src kept.store kept.memo known
        → IsVerdict src key.to verdict answer tally (learn g known (key_of key) answer)) }
{
    let Kept { store, mut memo } = kept;
    learn(&mut memo, tables.holder(0), key, entry)?;
    Ok(verdict_with(entry, counts, Kept { store, memo }))
}

impl<A: Allocator + Clone + Drop> Kept<A> {
    /// Parses an input by the first rule over what is kept: right answers of calls on it. All memory is the allocator's;
    /// where it runs out, nothing is handed out.
    pub fn run(self, alloc: A, tables: &Tables, input: &[u8]) -> Result<Verdict<A>, AllocError>
        requires { length input.now ≤ 2 ^ 30 }
        ensures { IfOk result (λ verdict. (g : Grammar) (known : Option Known) (answer : Result AnyTree Stop) → StandFor tables.now g
            → AreRight g input.now known → IsKnown (source tables.now input.now) self.store self.memo known → Means g input.now answer
            → (tally : Tally) × (later : Option Known) × ComesTo g input.now known answer tally later × AreRight g input.now later
            × IsVerdict (source tables.now input.now) (length input.now) verdict answer tally later) }
    {
        heights_agree();
        let key = first_key(input);
        match known(&self.memo, key) {
            Some(entry) => Ok(verdict_known(entry, self)),
            None => self.evaluate(alloc, tables, input, key),
        }
    }

    /// The same where the first rule's answer isn't known.
    fn evaluate(
        self,
        alloc: A,
        tables: &Tables,
        input: &[u8],
        key: Key,
    ) -> Result<Verdict<A>, AllocError>
        requires size { length input.now ≤ 2 ^ 30 }
        requires key { key_of key ≡ first_call input.now }
        ensures { IfOk result (λ verdict. (g : Grammar) (known : Option Known) (answer : Result AnyTree Stop) → StandFor tables.now g
            → AreRight g input.now known → IsKnown (source tables.now input.now) self.store self.memo known → Means g input.now answer
            → known_of known (first_call input.now) ≡ None
            → (tally : Tally) × (later : Option Known) × HadToRun g input.now known answer tally later × AreRight g input.now later
            × IsVerdict (source tables.now input.now) (length input.now) verdict answer tally later) }
    {
        ends_only_so();
        stays_right();
        let mut machine = Machine::over(alloc, tables, input, self)?;
        run_to_end(&mut machine)?;
        let Stopped { held, counts, kept } = machine.stop()?;
        match held {
            HeldAnswer::Node(id) => verdict_found(tables, key, Entry::Node(id), counts, kept),
            HeldAnswer::NoTree => verdict_found(tables, key, Entry::NoTree, counts, kept),
            HeldAnswer::Range => Ok(Verdict::Range { counts }),
        }
    }
}
