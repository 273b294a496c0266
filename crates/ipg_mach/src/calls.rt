//! Calls that are made and come back.

ghost use Rattle.std.specs.Prelude.{◌≡◌, ◌≤◌, ℕ, ◌++◌, ◌∷◌, [], List, Result, OnOk, length, Some};
ghost use Rattle.ipg_core.specs.Grammar.{same_place};
ghost use Rattle.ipg_core.specs.Run.{Stop};
ghost use Rattle.ipg_core.specs.Tree.{Tree};
ghost use Rattle.ipg_core.specs.Environment.{Values};
ghost use Rattle.ipg_core.specs.Meaning as meaning;
ghost use Rattle.ipg_core.specs.Meaning.{outer_for};
ghost use Rattle.ipg_mach_moves.specs.Moves.{OpenCall, Key, begins};
ghost use Rattle.ipg_mach_nodes.specs.Stored.{Source, IsMark};
ghost use Rattle.ipg_mach.specs.Piled.{between, IsBase, below, above};
ghost use Rattle.ipg_mach.specs.Calls.{shown, alternatives, IsNew, IsCall, IsHighest, IsHolding, IsWorking, Awaits, Keeps};
ghost use Rattle.ipg_mach.specs.declared.frame.Frame.{Frame};

use crate::frame::{Frame, NewCall, Outer};
use crate::top::Top;
use ipg_mach_node::laws::{before_before, grows_from_before, items_stay, results_stay};
use ipg_mach_term::TermEntry;
use ipg_region::Stack;
use ipg_table::tables::Tables;
use std::alloc::{AllocError, Allocator};

/// Whether this is the alternative at work.
fn is_place(place: (u32, u32), frame: &Frame<'_>) -> bool
    ensures { result ≡ same_place place (frame.now.rule, frame.now.alt) }
{
    place.0 == frame.rule && place.1 == frame.alt
}

impl<'m, A: Allocator + Clone + Drop> Top<'m, A> {
    /// Where the attributes stand that a rule called from here may read as its holder's: none for a global rule, those so
    /// far for a local rule of this alternative, and the holder's own for one of the same holder.
    pub fn outer(&self, holder: Option<(u32, u32)>) -> Outer
        ensures outer { (f : meaning.Frame) (own : Values) → f.rule ≡ self.now.frame.rule → f.alt ≡ self.now.frame.alt
            → own ≡ (above self.now.piles self.now.frame.base).own
            → f.outer ≡ between (below self.now.piles self.now.frame.base).own self.now.frame.outer.from self.now.frame.outer.to
            → self.now.frame.outer.to ≤ length (below self.now.piles self.now.frame.base).own → IsBase self.now.piles self.now.frame.base
            → outer_for f own holder ≡ between self.now.piles.own result.from result.to }
        ensures inside { self.now.frame.outer.to ≤ length (below self.now.piles self.now.frame.base).own → IsBase self.now.piles self.now.frame.base
            → result.to ≤ length self.now.piles.own }
    {
        match holder {
            None => Outer { from: 0, to: 0 },
            Some(place) => {
                if is_place(place, &self.frame) {
                    Outer {
                        from: self.frame.base.own,
                        to: self.piles.tops().own,
                    }
                } else {
                    self.frame.outer
                }
            }
        }
    }

    /// Makes a call: its first alternative begins.
    #[inline(always)]
    pub fn open(&mut self, tables: &'m Tables, new: NewCall) -> Result<(), AllocError>
        ensures highest { (src : Source) (frames : List Frame) (lower : List OpenCall) (f : meaning.Frame) (from : ℕ)
            → IsNew tables.now src (shown self.old) frames lower new f from
            → OnOk result (IsHighest tables.now src (shown self.new) frames lower (begins f from (alternatives f))) }
        ensures keeps { IsMark self.old.store self.old.floor → OnOk result (Keeps (shown self.old) (shown self.new)) }
    {
        self.frame = Frame {
            rule: new.rule,
            alt: 0,
            from: new.from,
            to: new.to,
            left: &[],
            entry: TermEntry::Outside,
            outer: new.outer,
            base: self.piles.tops(),
            mark: self.store.mark(),
        };
        self.begin(tables)
    }

    /// The call below goes on, which waited for this one.
    pub fn resume(&mut self, tables: &Tables, frames: &mut Stack<Frame<'m>, A>)
        ensures working { (src : Source) (lower : List OpenCall) (c : OpenCall) (key : Key) (answer : Result Tree Stop)
            → IsHolding tables.now src (shown self.old) frames.old.items (c ∷ lower) key answer
            → IsWorking tables.now src (shown self.new) frames.new.items lower c }
        ensures awaits { (src : Source) (lower : List OpenCall) (c : OpenCall) (key : Key) (answer : Result Tree Stop)
            → IsHolding tables.now src (shown self.old) frames.old.items (c ∷ lower) key answer
            → Awaits self.new.frame c self.old.frame.from self.old.frame.to }
        ensures store { self.new.store ≡ self.old.store }
        ensures floor { self.new.floor ≡ self.old.floor }
    {
        before_before();
        grows_from_before();
        items_stay();
        results_stay();
        frames.pop_into(&mut self.frame);
        self.answer = None;
    }
}
