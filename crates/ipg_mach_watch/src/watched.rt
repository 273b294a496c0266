//! What is kept of an evaluation that is watched.

ghost use Rattle.std.specs.Prelude.{◌≡◌, ◌≤◌, ◌+◌, ℕ, suc, [], length, Option, Some, Result, IfOk, OnOk};
ghost use Rattle.ipg_mach_moves.specs.Moves.{OpenCall, Evaluation, move, moves, ended};
ghost use Rattle.ipg_mach_nodes.specs.Stored.{Source};
ghost use Rattle.ipg_mach.specs.Scene.{IsScene};
ghost use Rattle.ipg_mach.specs.Stage.{staged, IsAt};
ghost use Rattle.ipg_mach.specs.Turning.{turn_of};
ghost use Rattle.ipg_mach_failures.specs.declared.story.Call.{Call as AnyCall};
ghost use Rattle.ipg_mach_failures.specs.Chain.{call_of, calls_of};
ghost use Rattle.ipg_mach_failures.specs.Failing.{call_fails};
ghost use Rattle.ipg_mach_failures.specs.Values.{values_of};
ghost use Rattle.ipg_mach_failures.specs.Furthest as spec;
ghost use Rattle.ipg_mach_watch.specs.Found.{worked};
ghost use Rattle.ipg_mach_watch.specs.Told.{IsFurthest};
ghost use Rattle.ipg_mach_watch.specs.Watched.{IsWatch};

use crate::furthest::Furthest;
use crate::scenes::{call_in, failure_in};
use ipg_mach::{Machine, Scene, Turn};
use ipg_mach_failures::Call;
use std::alloc::{AllocError, Allocator};

/// The furthest failures so far, the calls that wait, from the first rule on, the call that worked last, and an area for the
/// numbers of expressions.
#[derive(Drop)]
pub(crate) struct Watch<A: Allocator> {
    pub furthest: Furthest<A>,
    pub calls: Vec<Call, A>,
    pub last: Option<Call>,
    pub numbers: Vec<i64, A>,
}

/// An area of at least so many numbers.
fn widen<A: Allocator + Clone + Drop>(
    numbers: &mut Vec<i64, A>,
    depth: u32,
) -> Result<(), AllocError>
    ensures { OnOk result (depth ≤ length numbers.new.items) }
{
    let mut lacking = (depth as usize).saturating_sub(numbers.len());
    while lacking > 0 {
        numbers.push(0)?;
        lacking -= 1;
    }
    Ok(())
}

impl<A: Allocator + Clone + Drop> Watch<A> {
    /// Nothing was seen.
    pub(crate) fn new(alloc: A) -> Result<Watch<A>, AllocError>
        ensures { IfOk result (λ w. (e : Evaluation) → calls_of e ≡ [] → IsWatch w e 0) }
    {
        Ok(Watch {
            furthest: Furthest::new(alloc.clone()?)?,
            calls: Vec::new(alloc.clone()?),
            last: None,
            numbers: Vec::new(alloc),
        })
    }

    /// Looks at the term at hand of the highest call.
    fn see(&mut self, scene: &Scene<'_, A>) -> Result<(), AllocError>
        ensures furthest { (src : Source) (c : OpenCall) (f : spec.Furthest) → IsScene src scene.entry.now c → IsFurthest self.old.furthest f
            → OnOk result (IsFurthest self.new.furthest (spec.furthest_with f (spec.story_with self.old.calls.items (values_of c) (call_fails c)))) }
        ensures last { (src : Source) (c : OpenCall) → IsScene src scene.entry.now c → OnOk result (self.new.last ≡ Some (call_of c)) }
        ensures calls { self.new.calls ≡ self.old.calls }
    {
        widen(&mut self.numbers, scene.site.tables.depth())?;
        self.last = Some(call_in(scene));
        match failure_in(scene, self.numbers.as_mut_slice())? {
            Some(failure) => self.furthest.add(scene, failure, self.calls.as_slice()),
            None => Ok(()),
        }
    }

    /// Looks at what a machine stands for.
    fn look(&mut self, machine: &Machine<'_, A>) -> Result<(), AllocError>
        ensures furthest { (src : Source) (e : Evaluation) (f : spec.Furthest) → IsAt src (staged machine.now.work) e
            → self.old.calls.items ≡ calls_of e → IsFurthest self.old.furthest f
            → OnOk result (IsFurthest self.new.furthest (spec.furthest_with f (spec.story_of e))) }
        ensures last { (src : Source) (e : Evaluation) → IsAt src (staged machine.now.work) e
            → OnOk result (self.new.last ≡ worked self.old.last e.highest) }
        ensures calls { self.new.calls ≡ self.old.calls }
    {
        match machine.scene() {
            Some(scene) => self.see(&scene),
            None => Ok(()),
        }
    }

    /// Follows a move from so many open calls to so many.
    fn follow(&mut self, before: u64, after: u64) -> Result<(), AllocError>
        ensures calls { (e : Evaluation) (last : Option AnyCall) → self.old.calls.items ≡ calls_of e → self.old.last ≡ worked last e.highest
            → before ≡ length e.lower + 1 → after ≡ length (move e).lower + 1 → OnOk result (self.new.calls.items ≡ calls_of (move e)) }
        ensures furthest { self.new.furthest ≡ self.old.furthest }
        ensures last { self.new.last ≡ self.old.last }
    {
        if before < after {
            if let Some(call) = self.last {
                self.calls.push(call)?;
            }
            return Ok(());
        }
        if after < before {
            self.calls.pop();
        }
        Ok(())
    }

    /// Looks at what a machine stands for, and lets it make one move.
    pub(crate) fn step<'m>(&mut self, machine: &mut Machine<'m, A>) -> Result<Turn, AllocError>
        ensures { (src : Source) (e : Evaluation) (n : ℕ) → IsAt src (staged machine.old.work) (moves n e) → IsWatch self.old e n
            → IfOk result (λ turn. IsAt src (staged machine.new.work) (moves (suc n) e) × IsWatch self.new e (suc n)
            × (turn ≡ turn_of (ended (moves (suc n) e)))) }
    {
        self.look(machine)?;
        let before = machine.frames();
        let turn = machine.go(1)?;
        self.follow(before, machine.frames())?;
        Ok(turn)
    }
}
