//! The highest call.

ghost use Rattle.std.specs.Prelude.{◌≡◌, ◌≢◌, ℕ, ◌+◌, ◌++◌, ◌∷◌, [], ◌-◌, drop, max, false, List, Result, IfOk, OnOk, Some, slice_get, Ok};
ghost use Rattle.ipg_core.specs.declared.grammar.Sym.{Sym};
ghost use Rattle.ipg_core.specs.Tree as tree;
ghost use Rattle.ipg_core.specs.Tree.{kids_of};
ghost use Rattle.ipg_core.specs.Environment as core;
ghost use Rattle.ipg_core.specs.Meaning as meaning;
ghost use Rattle.ipg_core.specs.Meaning.{node_of, with_kid, with_value};
ghost use Rattle.ipg_mach_moves.specs.Moves as moves;
ghost use Rattle.ipg_mach_moves.specs.Moves.{OpenCall, Past, turned, begins, runs_on, key_at};
ghost use Rattle.ipg_mach_nodes.specs.Stored.{Source, IsMark};
ghost use Rattle.ipg_table.specs.Rows.{Rows};
ghost use Rattle.ipg_mach_term.specs.Advance.{IsAdvance, IsItem};
ghost use Rattle.ipg_mach_slot.specs.Now.{IsDone};
ghost use Rattle.ipg_mach_node.specs.Items.{together};
ghost use Rattle.ipg_mach.specs.Piled.{IsBase, below};
ghost use Rattle.ipg_mach_term.specs.declared.entry.TermEntry.TheVariants.{Outside};
ghost use Rattle.ipg_mach.specs.Calls.{shown, IsAtWork, IsWorking, IsHolding, IsHighest, IsReady, Keeps, items_in, term_at_hand};
ghost use Rattle.ipg_mach.specs.Calls as calls;
ghost use Rattle.ipg_mach.specs.declared.frame.Frame.{Frame};

use crate::alternatives::{alternative, sets_of};
use crate::frame::{Frame, HeldAnswer};
use crate::piles::Piles;
use ipg_mach_node::laws::{
    before_before, items_stay, none_has_run, one_more, result_set, results_stay,
};
use ipg_mach_node::{Closing, Scratch, Several, close, past_items};
use ipg_mach_nodes::{Kid, Mark, RunId, Store};
use ipg_mach_slot::Done;
use ipg_mach_term::{Advance, TermEntry};
use ipg_table::tables::Tables;
use std::alloc::{AllocError, Allocator};

/// The highest call, with what all open calls have come to and the nodes stored so far. What was stored before `floor`
/// is kept for the memo.
#[derive(Drop)]
pub struct Top<'m, A: Allocator> {
    pub store: Store<A>,
    pub piles: Piles<A>,
    pub scratch: Scratch<A>,
    pub frame: Frame<'m>,
    pub answer: Option<HeldAnswer>,
    pub floor: Mark,
}

/// The later of two ends of a store.
fn later(a: Mark, b: Mark) -> Mark
    ensures nodes { result.nodes.place ≡ max a.nodes.place b.nodes.place }
    ensures kids { result.kids.place ≡ max a.kids.place b.kids.place }
    ensures attrs { result.attrs.place ≡ max a.attrs.place b.attrs.place }
{
    Mark {
        nodes: RunId {
            place: a.nodes.place.max(b.nodes.place),
        },
        kids: RunId {
            place: a.kids.place.max(b.kids.place),
        },
        attrs: RunId {
            place: a.attrs.place.max(b.attrs.place),
        },
    }
}

/// The length of a call's part.
fn size(frame: &Frame<'_>) -> u32
    ensures { result ≡ calls.size_of frame.now }
{
    frame.to.saturating_sub(frame.from)
}

/// 2^32 alternatives count as want of memory.
const TOO_MANY_ALTERNATIVES: AllocError = AllocError;

/// The number of the next alternative.
fn behind(alt: u32) -> Result<u32, AllocError>
    ensures { IfOk result (λ next. next ≡ alt + 1) }
{
    alt.checked_add(1).ok_or(TOO_MANY_ALTERNATIVES)
}

impl<'m, A: Allocator + Clone + Drop> Top<'m, A> {
    /// An attribute has its value.
    fn add_value(&mut self, attr: u32, value: i64) -> Result<(), AllocError>
        ensures work { (t : Rows) (src : Source) (frames : List Frame) (lower : List OpenCall) (items : List tree.Kid) (c : OpenCall)
            → IsAtWork t src (shown self.old) frames lower items c
            → OnOk result (IsAtWork t src (shown self.new) frames lower items (record c { state = with_value c.state attr value })) }
        ensures keeps { IsMark self.old.store self.old.floor → OnOk result (Keeps (shown self.old) (shown self.new)) }
    {
        self.piles.add_own(attr, value)
    }

    /// The term at hand has its result.
    fn set_result(&mut self, done: Done)
        ensures work { (t : Rows) (src : Source) (frames : List Frame) (lower : List OpenCall) (items : List tree.Kid) (c : OpenCall) (one : core.Done)
            → c.left ≢ [] → IsAtWork t src (shown self.old) frames lower items c
            → IsDone src self.old.store self.old.frame.from (calls.size_of self.old.frame) done one
            → IsAtWork t src (shown self.new) frames lower items
            (record c { state = with_kid c.state (term_at_hand c.left) one.is_switch one.kid }) }
        ensures keeps { IsMark self.old.store self.old.floor → Keeps (shown self.old) (shown self.new) }
    {
        result_set();
        if let Some(instr) = self.frame.left.first() {
            self.piles.set_done(self.frame.base, instr.term, done);
        }
    }

    /// One item more.
    fn add_item(&mut self, item: Kid) -> Result<(), AllocError>
        ensures work { (t : Rows) (src : Source) (frames : List Frame) (lower : List OpenCall) (items : List tree.Kid) (c : OpenCall) (one : tree.Kid)
            → IsAtWork t src (shown self.old) frames lower items c
            → IsItem src self.old.store self.old.frame.from (calls.size_of self.old.frame) item one
            → OnOk result (IsAtWork t src (shown self.new) frames lower (items ++ one ∷ []) c) }
        ensures keeps { IsMark self.old.store self.old.floor → OnOk result (Keeps (shown self.old) (shown self.new)) }
        ensures frame { self.new.frame ≡ self.old.frame }
    {
        one_more();
        self.piles.add_item(item)
    }

    /// The items so far are together the result of the term at hand.
    fn set_items(&mut self, several: Several, sym: u32) -> Result<(), AllocError>
        ensures work { (t : Rows) (src : Source) (frames : List Frame) (lower : List OpenCall) (items : List tree.Kid) (c : OpenCall) (one : Sym)
            → c.left ≢ [] → IsAtWork t src (shown self.old) frames lower items c → slice_get src.syms sym ≡ Some one
            → OnOk result (IsAtWork t src (shown self.new) frames lower items
            (record c { state = with_kid c.state (term_at_hand c.left) false (together several one (kids_of items)) })) }
        ensures keeps { IsMark self.old.store self.old.floor → OnOk result (Keeps (shown self.old) (shown self.new)) }
    {
        items_stay();
        results_stay();
        let items = self.piles.items(self.frame.base);
        let done = past_items(&mut self.store, several, sym, items)?;
        self.set_result(done);
        Ok(())
    }

    /// The call holds its answer.
    fn hold(&mut self, held: HeldAnswer)
        ensures shown { IsBase self.old.piles self.old.frame.base
            → shown self.new ≡ record (shown self.old) { piles = below self.old.piles self.old.frame.base; answer = Some held } }
        ensures store { self.new.store ≡ self.old.store }
        ensures floor { self.new.floor ≡ self.old.floor }
    {
        self.piles.cut(self.frame.base);
        self.answer = Some(held);
    }

    /// All terms have run: the call holds its node.
    #[inline(never)]
    fn close(&mut self, tables: &Tables) -> Result<(), AllocError>
        ensures holds { (src : Source) (frames : List Frame) (lower : List OpenCall) (items : List tree.Kid) (c : OpenCall)
            → IsAtWork tables.now src (shown self.old) frames lower items c
            → OnOk result (IsHolding tables.now src (shown self.new) frames lower (key_at c.frame c.from) (Ok (node_of c.frame c.terms c.state))) }
        ensures keeps { IsMark self.old.store self.old.floor → OnOk result (Keeps (shown self.old) (shown self.new)) }
    {
        items_stay();
        results_stay();
        let base = self.frame.base;
        let call = Closing {
            rule: self.frame.rule,
            size: size(&self.frame),
            sets: sets_of(tables, self.frame.rule, self.frame.alt),
            own: self.piles.own(base),
            done: self.piles.done(base),
        };
        let id = close(tables, &mut self.store, &mut self.scratch, &call)?;
        self.hold(HeldAnswer::Node(id));
        Ok(())
    }

    /// The terms left run, or the call is closed.
    #[inline(always)]
    fn run_on(&mut self, tables: &Tables) -> Result<(), AllocError>
        ensures highest { (src : Source) (frames : List Frame) (lower : List OpenCall) (c : OpenCall)
            → IsAtWork tables.now src (shown self.old) frames lower [] c → self.old.frame.entry ≡ Outside
            → OnOk result (IsHighest tables.now src (shown self.new) frames lower (runs_on c c.state c.left)) }
        ensures keeps { IsMark self.old.store self.old.floor → OnOk result (Keeps (shown self.old) (shown self.new)) }
    {
        if self.frame.left.is_empty() {
            self.close(tables)
        } else {
            Ok(())
        }
    }

    /// The term at hand is past.
    fn pass(&mut self, tables: &Tables) -> Result<(), AllocError>
        ensures highest { (src : Source) (frames : List Frame) (lower : List OpenCall) (items : List tree.Kid) (c : OpenCall)
            → IsAtWork tables.now src (shown self.old) frames lower items c
            → OnOk result (IsHighest tables.now src (shown self.new) frames lower (runs_on c c.state (drop 1 c.left))) }
        ensures keeps { IsMark self.old.store self.old.floor → OnOk result (Keeps (shown self.old) (shown self.new)) }
    {
        self.piles.clear_items(self.frame.base);
        self.frame.left = self.frame.left.get(1..).unwrap_or_default();
        self.frame.entry = TermEntry::Outside;
        self.run_on(tables)
    }

    /// An attribute has its value, and the term at hand is past.
    fn pass_value(&mut self, tables: &Tables, attr: u32, value: i64) -> Result<(), AllocError>
        ensures highest { (src : Source) (frames : List Frame) (lower : List OpenCall) (items : List tree.Kid) (c : OpenCall)
            → IsAtWork tables.now src (shown self.old) frames lower items c
            → OnOk result (IsHighest tables.now src (shown self.new) frames lower (turned c (Ok (Past (with_value c.state attr value))))) }
        ensures keeps { IsMark self.old.store self.old.floor → OnOk result (Keeps (shown self.old) (shown self.new)) }
    {
        self.add_value(attr, value)?;
        self.pass(tables)
    }

    /// The term at hand has its result, and is past.
    fn pass_result(&mut self, tables: &Tables, done: Done) -> Result<(), AllocError>
        ensures highest { (src : Source) (frames : List Frame) (lower : List OpenCall) (items : List tree.Kid) (c : OpenCall) (one : core.Done)
            → c.left ≢ [] → IsAtWork tables.now src (shown self.old) frames lower items c
            → IsDone src self.old.store self.old.frame.from (calls.size_of self.old.frame) done one
            → OnOk result (IsHighest tables.now src (shown self.new) frames lower
            (turned c (Ok (Past (with_kid c.state (term_at_hand c.left) one.is_switch one.kid))))) }
        ensures keeps { IsMark self.old.store self.old.floor → OnOk result (Keeps (shown self.old) (shown self.new)) }
    {
        self.set_result(done);
        self.pass(tables)
    }

    /// The items so far are together the result of the term at hand, which is past.
    fn pass_items(&mut self, tables: &Tables, several: Several, sym: u32) -> Result<(), AllocError>
        ensures highest { (src : Source) (frames : List Frame) (lower : List OpenCall) (items : List tree.Kid) (c : OpenCall) (one : Sym)
            → c.left ≢ [] → IsAtWork tables.now src (shown self.old) frames lower items c → slice_get src.syms sym ≡ Some one
            → OnOk result (IsHighest tables.now src (shown self.new) frames lower
            (turned c (Ok (Past (with_kid c.state (term_at_hand c.left) false (together several one (kids_of items))))))) }
        ensures keeps { IsMark self.old.store self.old.floor → OnOk result (Keeps (shown self.old) (shown self.new)) }
    {
        self.set_items(several, sym)?;
        self.pass(tables)
    }

    /// The alternative of the frame's number begins; where the rule has no more, the call holds that there is no tree.
    #[inline(always)]
    pub fn begin(&mut self, tables: &'m Tables) -> Result<(), AllocError>
        ensures highest { (src : Source) (frames : List Frame) (lower : List OpenCall) (f : meaning.Frame) (from : ℕ)
            → IsReady tables.now src (shown self.old) frames lower f from
            → OnOk result (IsHighest tables.now src (shown self.new) frames lower (begins f from (calls.alternatives f))) }
        ensures keeps { IsMark self.old.store self.old.floor → OnOk result (Keeps (shown self.old) (shown self.new)) }
    {
        match alternative(tables, self.frame.rule, self.frame.alt) {
            Some(alt) => {
                self.frame.left = tables.instrs(alt);
                self.frame.entry = TermEntry::Outside;
                none_has_run();
                self.piles.begin(self.frame.base, alt.terms)?;
                self.run_on(tables)
            }
            None => {
                self.hold(HeldAnswer::NoTree);
                Ok(())
            }
        }
    }

    /// The alternative has no tree: the next one begins.
    #[inline(never)]
    fn begin_next(&mut self, tables: &'m Tables) -> Result<(), AllocError>
        ensures highest { (src : Source) (frames : List Frame) (lower : List OpenCall) (items : List tree.Kid) (c : OpenCall)
            → IsMark self.old.store self.old.floor → IsAtWork tables.now src (shown self.old) frames lower items c
            → OnOk result (IsHighest tables.now src (shown self.new) frames lower (begins (record c.frame { alt = c.frame.alt + 1 }) c.from c.alts)) }
        ensures keeps { IsMark self.old.store self.old.floor → IsMark self.old.store self.old.frame.mark
            → OnOk result (Keeps (shown self.old) (shown self.new)) }
    {
        self.frame.alt = behind(self.frame.alt)?;
        before_before();
        self.store.cut(later(self.frame.mark, self.floor));
        self.begin(tables)
    }

    /// The term at hand has come to this: the call goes on, with its next alternative where there is no tree.
    #[inline(always)]
    pub fn turned(&mut self, tables: &'m Tables, adv: Advance) -> Result<(), AllocError>
        ensures highest { (src : Source) (frames : List Frame) (lower : List OpenCall) (c : OpenCall) (call : meaning.Call)
            → IsMark self.old.store self.old.floor → IsWorking tables.now src (shown self.old) frames lower c
            → IsAdvance src self.old.store self.old.frame.from (calls.size_of self.old.frame) (term_at_hand c.left) c.state (items_in c.entry) adv
            (moves.at_hand call c).answer
            → OnOk result (IsHighest tables.now src (shown self.new) frames lower (turned c (moves.at_hand call c).answer)) }
        ensures keeps { IsMark self.old.store self.old.floor → IsMark self.old.store self.old.frame.mark
            → OnOk result (Keeps (shown self.old) (shown self.new)) }
    {
        match adv {
            Advance::Value { attr, value } => self.pass_value(tables, attr, value),
            Advance::Passed => self.pass(tables),
            Advance::Result(done) => self.pass_result(tables, done),
            Advance::Array { sym } => self.pass_items(tables, Several::Array, sym),
            Advance::Last { sym, item } => {
                self.add_item(item)?;
                self.pass_items(tables, Several::Array, sym)
            }
            Advance::Many { sym } => self.pass_items(tables, Several::Repetition, sym),
            Advance::Inside(entry) => {
                self.frame.entry = entry;
                Ok(())
            }
            Advance::Item { item, entry } => {
                self.add_item(item)?;
                self.frame.entry = entry;
                Ok(())
            }
            Advance::NoTree => self.begin_next(tables),
            Advance::Range => {
                self.hold(HeldAnswer::Range);
                Ok(())
            }
        }
    }
}
