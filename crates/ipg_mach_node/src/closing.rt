//! The node of a call whose terms have all run.

ghost use Rattle.std.specs.Prelude.{◌≡◌, ℕ, ◌+◌, ◌≤◌, ◌^◌, List, min, IfOk, OnOk, OnErr};
ghost use Rattle.ipg_core.specs.declared.grammar.CoreTerm.{CoreTerm};
ghost use Rattle.ipg_core.specs.Touch.{kids_touch, untouched};
ghost use Rattle.ipg_core.specs.Tree.{Kids};
ghost use Rattle.ipg_core.specs.Within.{KidsWithin, TreeWithin};
ghost use Rattle.ipg_core.specs.Meaning.{Frame, State, node_of};
ghost use Rattle.ipg_mach_nodes.specs.Stored.{Source, StandsTree};
ghost use Rattle.ipg_mach_nodes.specs.Laws.{Grows};
ghost use Rattle.ipg_mach_results.specs.Flat.{AreFlat};
ghost use Rattle.ipg_mach_results.specs.Ends.{ends_view};
ghost use Rattle.ipg_mach_node.specs.Closes.{Closes, head_of};

use crate::laws::grows_on;
use crate::scratch::{Scratch, put_attrs, put_kids};
use ipg_mach_nodes::laws::kids_stay;
use ipg_mach_nodes::{Head, RunId, Store};
use ipg_mach_results::{Ends, extent};
use ipg_mach_slot::Done;
use ipg_table::tables::Tables;
use std::alloc::{AllocError, Allocator};

/// An alternative whose terms have all run, on a part of `size` bytes: the attributes that it sets in text order, those
/// with their values, and the results of its terms.
#[derive(Clone, Copy)]
pub struct Closing<'m> {
    pub rule: u32,
    pub size: u32,
    pub sets: &'m [u32],
    pub own: &'m [(u32, i64)],
    pub done: &'m [Option<Done>],
}

/// A place, as one of a part of so many bytes.
fn within(place: u64, size: u32) -> u32
    ensures { result ≡ min place size }
{
    place.min(u64::from(size)) as u32
}

/// The head of the node of a call whose results touch these ends.
fn head(call: &Closing<'_>, ends: Ends) -> Head
    ensures { (ones : Kids) → AreFlat ones → KidsWithin call.now.size ones → ends_view ends ≡ kids_touch ones (untouched call.now.size)
        → result ≡ head_of call.now.rule call.now.size ones }
{
    Head {
        rule: call.rule,
        size: call.size,
        start: within(ends.start, call.size),
        end: within(ends.end, call.size),
    }
}

/// 2^32 levels count as want of memory.
const TOO_DEEP: AllocError = AllocError;

/// The levels of a node whose children have so many.
fn above(levels: u64) -> Result<u32, AllocError>
    requires { levels ≤ 2 ^ 32 }
    ensures { IfOk result (λ more. more ≡ levels + 1) }
{
    match u32::try_from(levels + 1) {
        Ok(more) => Ok(more),
        Err(_) => Err(TOO_DEEP),
    }
}

/// The node of an alternative whose terms have all run, stored.
pub fn close<A: Allocator + Clone + Drop>(
    tables: &Tables,
    store: &mut Store<A>,
    scratch: &mut Scratch<A>,
    call: &Closing<'_>,
) -> Result<RunId, AllocError>
    ensures tree { IfOk result (λ id. (src : Source) (at : ℕ) (f : Frame) (terms : List CoreTerm) (state : State)
        → Closes src store.old at tables.now call.now f terms state
        → StandsTree src store.new at id (node_of f terms state) × TreeWithin call.now.size (node_of f terms state)) }
    ensures grows { OnOk result (Grows store.old store.new) }
    ensures err { OnErr result (store.new ≡ store.old) }
{
    grows_on();
    kids_stay();
    put_attrs(&mut scratch.attrs, call.sets, call.own)?;
    put_kids(&mut scratch.kids, call.done)?;
    let kids = scratch.kids.as_slice();
    let extent = extent(store, tables, kids, call.size);
    let levels = above(extent.levels)?;
    store.add_node(
        head(call, extent.ends),
        levels,
        scratch.attrs.as_slice(),
        kids,
    )
}
