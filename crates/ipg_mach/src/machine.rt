//! The machine, step by step.

ghost use Rattle.std.specs.Prelude.{◌≡◌, ◌≤◌, ◌+◌, ◌^◌, [], ℕ, List, length, Result, IfOk, IsErr, OnErr, Option, Some, true};
ghost use Rattle.ipg_core.specs.Grammar.{Grammar};
ghost use Rattle.ipg_core.specs.Tree.{Tree};
ghost use Rattle.ipg_core.specs.Run.{Stop};
ghost use Rattle.ipg_mach_moves.specs.Moves.{Evaluation, Known, opening, opened, ended};
ghost use Rattle.ipg_mach_nodes.specs.Stored.{Source, IsMark, before};
ghost use Rattle.ipg_table.specs.Rows.{StandFor};
ghost use Rattle.ipg_mach.specs.Calls.{shown, IsAnswer, IsHighest};
ghost use Rattle.ipg_mach.specs.Counted.{IsTally};
ghost use Rattle.ipg_mach.specs.Known.{IsKnown};
ghost use Rattle.ipg_mach.specs.Stage.{staged, source, IsAt};
ghost use Rattle.ipg_mach.specs.Turning.{known_at, HasGone};

use crate::counted;
use crate::frame::{Frame, HeldAnswer, NewCall, Outer};
use crate::kept::Kept;
use crate::piles::{Bases, Piles};
use crate::reader::Reader;
use crate::top::Top;
use crate::work::Work;
use ipg_mach_node::Scratch;
use ipg_mach_node::laws::grows_from_before;
use ipg_mach_nodes::laws::trees_stay;
use ipg_mach_nodes::{Mark, Store};
use ipg_mach_term::TermEntry;
use ipg_region::Stack;
use ipg_table::tables::Tables;
use ipg_tree_walk::Counts;
use std::alloc::{AllocError, Allocator};

/// What is remembered of calls.
#[derive(Clone, Copy, Debug, PartialEq, Eq)]
pub enum Remember {
    Nothing,
    /// The answers of global rules.
    Answers,
}

/// Whether the evaluation goes on.
#[derive(Clone, Copy, Debug, PartialEq, Eq)]
pub enum Turn {
    More,
    Done,
}

/// What an evaluation has come to: the answer of the first rule, what was counted, and what is kept.
#[derive(Drop)]
pub(crate) struct Stopped<A: Allocator> {
    pub held: HeldAnswer,
    pub counts: Counts,
    pub kept: Kept<A>,
}

/// So many zeros.
fn numbers<A: Allocator>(alloc: A, count: u32) -> Result<Vec<i64, A>, AllocError>
    ensures { IfOk result (λ numbers. length numbers.items ≡ count) }
{
    let mut numbers = Vec::with_capacity(alloc, count as usize)?;
    for _ in 0..count {
        numbers.push(0)?;
    }
    Ok(numbers)
}

/// The start of the input, before a call is made.
fn nowhere<'m>(mark: Mark) -> Frame<'m> {
    Frame {
        rule: 0,
        alt: 0,
        from: 0,
        to: 0,
        left: &[],
        entry: TermEntry::Outside,
        outer: Outer { from: 0, to: 0 },
        base: Bases {
            done: 0,
            own: 0,
            items: 0,
        },
        mark,
    }
}

/// The first rule, called on the whole input. All that is stored is kept.
fn first_call<'m, A: Allocator + Clone + Drop>(
    alloc: A,
    store: Store<A>,
    tables: &'m Tables,
    size: u32,
) -> Result<Top<'m, A>, AllocError>
    ensures highest { IfOk result (λ top. (g : Grammar) (input : List ℕ) → StandFor tables.now g → length input ≡ size
        → IsHighest tables.now (source tables.now input) (shown top) [] [] (opened g 0 input 0 [])) }
    ensures floor { IfOk result (λ top. IsMark top.store top.floor × (before top.store top.floor ≡ store)) }
{
    let mark = store.mark();
    let mut top = Top {
        store,
        piles: Piles::new(alloc.clone()?)?,
        scratch: Scratch::new(alloc)?,
        frame: nowhere(mark),
        answer: None,
        floor: mark,
    };
    top.open(
        tables,
        NewCall {
            rule: 0,
            from: 0,
            to: size,
            outer: Outer { from: 0, to: 0 },
        },
    )?;
    Ok(top)
}

/// Of an evaluation that has not ended there is nothing to hand out.
const NOT_ENDED: AllocError = AllocError;

/// An open evaluation of the first rule of a grammar on an input.
#[derive(Drop)]
pub struct Machine<'m, A: Allocator> {
    pub work: Work<'m, A>,
    /// Memory ran out in the midst of a move.
    pub is_spoiled: bool,
}

impl<'m, A: Allocator + Clone + Drop> Machine<'m, A> {
    /// The first rule is called on the whole input, and its first alternative begins.
    pub fn new(
        alloc: A,
        tables: &'m Tables,
        input: &'m [u8],
        remember: Remember,
    ) -> Result<Machine<'m, A>, AllocError>
        requires { length input.now ≤ 2 ^ 30 }
        ensures { IfOk result (λ machine. (g : Grammar) → StandFor tables.now g
            → IsAt (source tables.now input.now) (staged machine.work) (opening g input.now (known_at remember))) }
    {
        let kept = Kept::new(alloc.clone()?, remember)?;
        Machine::over(alloc, tables, input, kept)
    }

    /// The same over what is kept, which is known from the start.
    pub fn over(
        alloc: A,
        tables: &'m Tables,
        input: &'m [u8],
        kept: Kept<A>,
    ) -> Result<Machine<'m, A>, AllocError>
        requires { length input.now ≤ 2 ^ 30 }
        ensures { IfOk result (λ machine. (g : Grammar) (known : Option Known) → StandFor tables.now g
            → IsKnown (source tables.now input.now) kept.store kept.memo known
            → IsAt (source tables.now input.now) (staged machine.work) (opening g input.now known)) }
    {
        let Kept { store, memo } = kept;
        let numbers = numbers(alloc.clone()?, tables.depth())?;
        let top = first_call(alloc.clone()?, store, tables, input.len() as u32)?;
        let work = Work {
            reader: Reader {
                tables,
                input,
                numbers,
            },
            top,
            frames: Stack::new(alloc.clone()?)?,
            memo,
            counts: counted::opening(),
        };
        Ok(Machine {
            work,
            is_spoiled: false,
        })
    }

    /// At most so many moves: as many, or those up to the evaluation's end. Where memory runs out, every later call answers so.
    pub fn go(&mut self, most: u64) -> Result<Turn, AllocError>
        ensures gone { (src : Source) (e : Evaluation) → IsAt src (staged self.old.work) e
            → IfOk result (λ turn. HasGone src (staged self.new.work) e most turn) }
        ensures spoiled { OnErr result (self.new.is_spoiled ≡ true) }
        ensures stays { self.old.is_spoiled ≡ true → IsErr result }
    {
        if self.is_spoiled {
            return Err(AllocError);
        }
        match self.work.go(most) {
            Ok(turn) => Ok(turn),
            Err(fault) => {
                self.is_spoiled = true;
                Err(fault)
            }
        }
    }

    /// How many calls are open.
    pub fn frames(&self) -> u64
        ensures { (src : Source) (e : Evaluation) → IsAt src (staged self.now.work) e → result ≡ length e.lower + 1 }
    {
        self.work.frames.len() as u64 + 1
    }

    /// What the evaluation has come to, once it has ended.
    pub(crate) fn stop(self) -> Result<Stopped<A>, AllocError>
        ensures { IfOk result (λ stopped. (src : Source) (e : Evaluation) (answer : Result Tree Stop)
            → IsAt src (staged self.entry.work) e → ended e ≡ Some answer
            → IsAnswer src stopped.kept.store 0 (length src.input) stopped.held answer × IsTally stopped.counts e.tally
            × IsKnown src stopped.kept.store stopped.kept.memo e.known) }
    {
        grows_from_before();
        trees_stay();
        let Machine { work, .. } = self;
        let Work {
            top,
            memo,
            counts,
            ..
        } = work;
        match top.answer {
            Some(held) => Ok(Stopped {
                held,
                counts,
                kept: Kept {
                    store: top.store,
                    memo,
                },
            }),
            None => Err(NOT_ENDED),
        }
    }
}
