//! The furthest failures so far.

ghost use Rattle.std.specs.Prelude.{◌≡◌, Result, OnOk, IfOk, Some};
ghost use Rattle.ipg_mach_moves.specs.Moves.{OpenCall};
ghost use Rattle.ipg_mach_nodes.specs.Stored.{Source};
ghost use Rattle.ipg_mach.specs.Scene.{IsScene};
ghost use Rattle.ipg_mach_failures.specs.Chain.{story};
ghost use Rattle.ipg_mach_failures.specs.Values.{values_of};
ghost use Rattle.ipg_mach_failures.specs.Furthest as spec;
ghost use Rattle.ipg_mach_watch.specs.Told.{IsFurthest, told_place};

use crate::scenes::values_in;
use ipg_mach::Scene;
use ipg_mach_failures::{Call, Failure, Story};
use std::alloc::{AllocError, Allocator};

/// How many are told at most.
const FEW: usize = 8;

/// The failures at the greatest place, in the order in which they were met, each once, eight at most, with the calls that were
/// open, and how often others were met there.
#[derive(Drop)]
pub(crate) struct Furthest<A: Allocator> {
    pub told: Vec<Story, A>,
    pub more: u64,
}

/// Whether two are of one place of the grammar.
fn alike(a: &Failure, b: &Failure) -> bool
    ensures { result ≡ spec.alike a.now b.now }
{
    a.rule == b.rule && a.alt == b.alt && a.term == b.term && a.branch == b.branch
}

/// Whether one alike is told.
fn is_told(told: &[Story], failure: &Failure) -> bool
    ensures { result ≡ spec.is_told told.now failure.now }
{
    for one in told {
        if alike(&one.failure, failure) {
            return true;
        }
    }
    false
}

/// A failure of a scene's term, above these calls.
fn story_in<A: Allocator + Clone + Drop>(
    scene: &Scene<'_, A>,
    failure: Failure,
    calls: &[Call],
) -> Story
    ensures { (src : Source) (c : OpenCall) → IsScene src scene.entry.now c → result ≡ story calls.now (values_of c failure) failure }
{
    Story::of(failure, values_in(scene, failure), calls)
}

/// The place of those that are told; None where none is.
fn place_of(told: &[Story]) -> Option<u64>
    ensures { result ≡ told_place told.now }
{
    match told.first() {
        Some(one) => Some(one.failure.place),
        None => None,
    }
}

impl<A: Allocator + Clone + Drop> Furthest<A> {
    /// None was met.
    pub(crate) fn new(alloc: A) -> Result<Furthest<A>, AllocError>
        ensures { IfOk result (λ f. IsFurthest f spec.none_met) }
    {
        Ok(Furthest {
            told: Vec::with_capacity(alloc, FEW)?,
            more: 0,
        })
    }

    /// The first failure that is so far.
    fn only(
        &mut self,
        scene: &Scene<'_, A>,
        failure: Failure,
        calls: &[Call],
    ) -> Result<(), AllocError>
        ensures { (src : Source) (c : OpenCall) → IsScene src scene.entry.now c
            → OnOk result (IsFurthest self.new (spec.only (story calls.now (values_of c failure) failure))) }
    {
        self.told.clear();
        self.more = 0;
        self.told.push(story_in(scene, failure, calls))?;
        Ok(())
    }

    /// One failure more at the same place.
    fn with_one(
        &mut self,
        scene: &Scene<'_, A>,
        failure: Failure,
        calls: &[Call],
    ) -> Result<(), AllocError>
        ensures { (src : Source) (c : OpenCall) (f : spec.Furthest) → IsScene src scene.entry.now c → IsFurthest self.old f
            → OnOk result (IsFurthest self.new (spec.with_one f (story calls.now (values_of c failure) failure))) }
    {
        if is_told(self.told.as_slice(), &failure) {
            return Ok(());
        }
        if self.told.len() < FEW {
            self.told.push(story_in(scene, failure, calls))?;
            return Ok(());
        }
        self.more = self.more.saturating_add(1);
        Ok(())
    }

    /// One failure more, where those so far are at a place.
    fn further(
        &mut self,
        place: u64,
        scene: &Scene<'_, A>,
        failure: Failure,
        calls: &[Call],
    ) -> Result<(), AllocError>
        ensures { (src : Source) (c : OpenCall) (f : spec.Furthest) → IsScene src scene.entry.now c → IsFurthest self.old f
            → OnOk result (IsFurthest self.new (spec.further f place (story calls.now (values_of c failure) failure))) }
    {
        if failure.place < place {
            return Ok(());
        }
        if place < failure.place {
            return self.only(scene, failure, calls);
        }
        self.with_one(scene, failure, calls)
    }

    /// One failure more, of a scene's term, with the calls that are open below its own. What it read is asked for only where it
    /// is kept.
    pub(crate) fn add(
        &mut self,
        scene: &Scene<'_, A>,
        failure: Failure,
        calls: &[Call],
    ) -> Result<(), AllocError>
        ensures { (src : Source) (c : OpenCall) (f : spec.Furthest) → IsScene src scene.entry.now c → IsFurthest self.old f
            → OnOk result (IsFurthest self.new (spec.furthest_with f (Some (story calls.now (values_of c failure) failure)))) }
    {
        match place_of(self.told.as_slice()) {
            Some(place) => self.further(place, scene, failure, calls),
            None => self.only(scene, failure, calls),
        }
    }
}
