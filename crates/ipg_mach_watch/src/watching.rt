//! A parse that is watched.

ghost use Rattle.std.specs.Prelude.{◌≡◌, ◌≤◌, ◌^◌, length, Option, Some, Result, Err, IfOk, OnOk};
ghost use Rattle.ipg_core.specs.Grammar.{Grammar};
ghost use Rattle.ipg_core.specs.Tree.{Tree};
ghost use Rattle.ipg_core.specs.Run.{Stop, OutOfRange};
ghost use Rattle.ipg_mach_moves.specs.Moves.{Evaluation};
ghost use Rattle.ipg_mach_nodes.specs.Stored.{Source};
ghost use Rattle.ipg_table.specs.Rows.{StandFor};
ghost use Rattle.ipg_mach.specs.Ended.{ending_of};
ghost use Rattle.ipg_mach.specs.Stage.{staged, IsAt};
ghost use Rattle.ipg_mach_failures.specs.Furthest as spec;
ghost use Rattle.ipg_mach_watch.specs.Found.{AreFindings, found, found_with, end_of};
ghost use Rattle.ipg_mach_watch.specs.Told.{IsFurthest};
ghost use Rattle.ipg_mach_watch.specs.Watched.{IsWatch, IsEnded};

use crate::findings::{End, Findings};
use crate::furthest::Furthest;
use crate::watched::Watch;
use ipg_mach::{Ended, Machine, Remember, Turn};
use ipg_mach_failures::Call;
use ipg_table::tables::Tables;
use std::alloc::{AllocError, Allocator};

/// 2^64 moves count as want of memory.
const TOO_MANY_MOVES: AllocError = AllocError;

/// Watches a machine until its evaluation has ended.
fn run<'m, A: Allocator + Clone + Drop>(
    machine: &mut Machine<'m, A>,
    watch: &mut Watch<A>,
) -> Result<(), AllocError>
    ensures { (src : Source) (e : Evaluation) → IsAt src (staged machine.old.work) e → IsWatch watch.old e 0
        → OnOk result (IsEnded src (staged machine.new.work) watch.new e) }
{
    let mut left = u64::MAX;
    while left > 0 {
        match watch.step(machine)? {
            Turn::Done => return Ok(()),
            Turn::More => left -= 1,
        }
    }
    Err(TOO_MANY_MOVES)
}

/// A value left 64 bits in the term at hand of this call.
fn range_in(last: Option<Call>) -> Option<End>
    ensures { result ≡ end_of last (Some (Err OutOfRange)) }
{
    match last {
        Some(call) => Some(End::Range(call)),
        None => None,
    }
}

/// What an evaluation came to, by the answer with which it ended and the call that worked last.
fn end(ended: Option<Ended>, last: Option<Call>) -> Option<End>
    ensures { (answer : Option (Result Tree Stop)) → ended ≡ ending_of answer → result ≡ end_of last answer }
{
    match ended {
        Some(Ended::Tree) => Some(End::Tree),
        Some(Ended::NoTree) => Some(End::NoTree),
        Some(Ended::Range) => range_in(last),
        None => None,
    }
}

/// Nothing is found before the end.
const NOT_ENDED: AllocError = AllocError;

/// What is found, once the evaluation has ended.
fn findings<A: Allocator + Clone + Drop>(
    end: Option<End>,
    furthest: Furthest<A>,
) -> Result<Findings<A>, AllocError>
    ensures { (f : spec.Furthest) → IsFurthest furthest f → IfOk result (λ it. found_with end f ≡ Some (found it)) }
{
    match end {
        Some(end) => Ok(Findings {
            end,
            told: furthest.told,
            more: furthest.more,
        }),
        None => Err(NOT_ENDED),
    }
}

/// Parses an input by the first rule, with a memo, and tells what that came to and the furthest failures. All memory is the
/// allocator's; where it runs out, nothing is handed out.
pub fn watch<A: Allocator + Clone + Drop>(
    alloc: A,
    tables: &Tables,
    input: &[u8],
) -> Result<Findings<A>, AllocError>
    requires { length input.now ≤ 2 ^ 30 }
    ensures { IfOk result (λ it. (g : Grammar) → StandFor tables.now g → AreFindings g input.now (found it)) }
{
    let mut machine = Machine::new(alloc.clone()?, tables, input, Remember::Answers)?;
    let mut watch = Watch::new(alloc)?;
    run(&mut machine, &mut watch)?;
    findings(end(machine.ending(), watch.last), watch.furthest)
}
