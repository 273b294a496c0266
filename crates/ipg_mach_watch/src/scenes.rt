//! What a scene tells: the call, the term at hand where it fails by itself, and what that reads.

ghost use Rattle.std.specs.Prelude.{◌≡◌, ◌≤◌, ◌+◌, ◌^◌, ◌<◌, ℕ, length, Option, Some, Result, IfOk};
ghost use Rattle.ipg_mach_moves.specs.Moves.{OpenCall};
ghost use Rattle.ipg_mach_nodes.specs.Stored.{Source};
ghost use Rattle.ipg_mach.specs.Scene.{IsScene};
ghost use Rattle.ipg_mach_failures.specs.Chain.{call_of};
ghost use Rattle.ipg_mach_failures.specs.Failing as spec;
ghost use Rattle.ipg_mach_failures.specs.Values.{read_at_hand, values_of};

use crate::reach::{done_end, items_end};
use crate::reads::read;
use crate::terms::term;
use ipg_mach::Scene;
use ipg_mach_failures::{Call, Cause, Failure, Miss, Values};
use ipg_mach_results::laws::within_are_short;
use ipg_mach_term::TermEntry;
use std::alloc::{AllocError, Allocator};

/// A place past 64 bits counts as want of memory.
const PAST_64_BITS: AllocError = AllocError;

/// The call, at its term at hand.
pub(crate) fn call_in<A: Allocator + Clone + Drop>(scene: &Scene<'_, A>) -> Call
    ensures { (src : Source) (c : OpenCall) → IsScene src scene.entry.now c → result ≡ call_of c }
{
    Call {
        rule: scene.rule,
        alt: scene.alt,
        term: scene.instr.term,
        from: scene.from,
        to: scene.to,
    }
}

/// The length of the call's part.
fn part_size<A: Allocator + Clone + Drop>(scene: &Scene<'_, A>) -> u32
    ensures { result ≡ scene.entry.now.site.size }
{
    scene.site.size
}

/// The end of what the alternative has touched so far, in its part.
fn reached<A: Allocator + Clone + Drop>(scene: &Scene<'_, A>) -> u64
    ensures { (src : Source) (c : OpenCall) → IsScene src scene.entry.now c → result ≡ spec.reached c.state c.entry }
{
    within_are_short();
    let site = scene.site;
    // A part has less than 2^32 bytes, so places in it are numbers of an expression.
    let _size = part_size(scene);
    let store = scene.now.store;
    let done = done_end(store, site.tables, scene.now.done);
    done.max(items_end(store, site.tables, scene.items))
}

/// Which item of an array or a repetition is at hand.
fn item_at_hand<A: Allocator + Clone + Drop>(scene: &Scene<'_, A>) -> Option<u64>
    ensures { (src : Source) (c : OpenCall) → IsScene src scene.entry.now c → result ≡ spec.item_at_hand c.entry }
{
    match scene.entry {
        TermEntry::Outside => None,
        TermEntry::Items { .. } => Some(scene.items.len() as u64),
        TermEntry::Turns { .. } => Some(scene.items.len() as u64),
    }
}

/// The place of a miss in the part of its call.
fn place_of<A: Allocator + Clone + Drop>(scene: &Scene<'_, A>, miss: Miss) -> u64
    ensures { (src : Source) (c : OpenCall) → IsScene src scene.entry.now c → result ≡ spec.place_of c miss.place }
{
    match miss.place {
        Some(place) => place,
        None => reached(scene),
    }
}

/// A miss of the term at hand, as a failure at a place of the input; a place of 2^64 counts as want of memory.
fn failure<A: Allocator + Clone + Drop>(
    scene: &Scene<'_, A>,
    miss: Miss,
) -> Result<Failure, AllocError>
    ensures { (src : Source) (c : OpenCall) → IsScene src scene.entry.now c
        → IfOk result (λ failure. Some failure ≡ spec.failure_at c scene.entry.now.instr.term (Some miss)) }
{
    let place = match u64::from(scene.from).checked_add(place_of(scene, miss)) {
        Some(place) => place,
        None => return Err(PAST_64_BITS),
    };
    Ok(Failure {
        rule: scene.rule,
        alt: scene.alt,
        from: scene.from,
        to: scene.to,
        term: scene.instr.term,
        branch: miss.branch,
        item: item_at_hand(scene),
        cause: miss.cause,
        place,
    })
}

/// The term at hand, where it fails by itself.
pub(crate) fn failure_in<A: Allocator + Clone + Drop>(
    scene: &Scene<'_, A>,
    area: &mut [i64],
) -> Result<Option<Failure>, AllocError>
    requires { scene.now.site.tables.now.depth ≤ length area.now }
    ensures fails { (src : Source) (c : OpenCall) → IsScene src scene.entry.now c → IfOk result (λ found. found ≡ spec.call_fails c) }
    ensures area { length area.new ≡ length area.old }
{
    match term(
        &scene.site,
        &scene.now,
        scene.instr.action,
        scene.entry,
        area,
    ) {
        Some(miss) => Ok(Some(failure(scene, miss)?)),
        None => Ok(None),
    }
}

/// The names that the expressions of the term at hand read, in a switch at a branch, with their values.
fn read_in<A: Allocator + Clone + Drop>(scene: &Scene<'_, A>, branch: u64) -> Values
    ensures { (src : Source) (c : OpenCall) → IsScene src scene.entry.now c → result ≡ read_at_hand c branch }
{
    read(
        scene.site.tables,
        &scene.now,
        scene.instr.action,
        scene.entry,
        branch,
    )
}

/// The names that they read, with their values, where the term fails so; none where the bytes are to blame.
pub(crate) fn values_in<A: Allocator + Clone + Drop>(
    scene: &Scene<'_, A>,
    failure: Failure,
) -> Values
    ensures { (src : Source) (c : OpenCall) → IsScene src scene.entry.now c → result ≡ values_of c failure }
{
    match failure.cause {
        Cause::Differs { .. } | Cause::CutShort { .. } => Values::new(),
        Cause::NoInterval { .. } | Cause::IsZero | Cause::NoValue => {
            read_in(scene, failure.branch)
        }
    }
}
