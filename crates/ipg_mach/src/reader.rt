//! What is read of the highest call.

ghost use Rattle.std.specs.Prelude.{◌≡◌, ◌≤◌, ◌-◌, ◌^◌, ◌<◌, ◌∷◌, [], ℕ, List, Result, length};
ghost use Rattle.ipg_core.specs.Part.{part as part_of};
ghost use Rattle.ipg_core.specs.Tree.{Tree};
ghost use Rattle.ipg_core.specs.Run.{Stop, Asked};
ghost use Rattle.ipg_mach_moves.specs.Moves.{OpenCall, silent, always};
ghost use Rattle.ipg_mach_moves.specs.Moves as moves;
ghost use Rattle.ipg_mach_nodes.specs.Stored.{Source};
ghost use Rattle.ipg_table.specs.Rows.{HoldsInstr};
ghost use Rattle.ipg_mach_term.specs.Advance.{IsAtHand, IsAdvance, EndsBy};
ghost use Rattle.ipg_mach_slot.specs.Now.{lent};
ghost use Rattle.ipg_mach.specs.Lending.{Lends};
ghost use Rattle.ipg_mach.specs.Calls as calls;
ghost use Rattle.ipg_mach.specs.Calls.{shown, IsWorking, IsSub, items_in, term_at_hand};
ghost use Rattle.ipg_mach.specs.declared.frame.Frame.{Frame};

use crate::top::Top;
use ipg_core::grammar::{CoreField, Sym};
use ipg_mach_nodes::Kid;
use ipg_mach_slot::{Now, PartSite, Running};
use ipg_mach_term::laws::{answered_is_taken, sub_ends_by};
use ipg_mach_term::{Advance, AtHand, TermEntry, at_hand, taken};
use ipg_table::results::Results;
use ipg_table::row::{Action, Instr};
use ipg_table::tables::Tables;
use std::alloc::Allocator;

/// The tables and the input, with an area for the numbers of expressions.
#[derive(Drop)]
pub struct Reader<'m, A: Allocator> {
    pub tables: &'m Tables,
    pub input: &'m [u8],
    pub numbers: Vec<i64, A>,
    ghost enough: { tables.now.depth ≤ length numbers.items },
}

/// A part of the input, as far as there is any.
pub(crate) fn part(input: &[u8], from: u32, to: u32) -> &[u8]
    ensures part { result.now ≡ part_of input.now from to }
    ensures small { length result.now < 2 ^ 32 }
{
    let behind = if (from as usize) < input.len() {
        &input[from as usize..]
    } else {
        &[]
    };
    let count = to.saturating_sub(from) as usize;
    if count < behind.len() {
        &behind[..count]
    } else {
        behind
    }
}

/// An array that runs, where the term at hand is one.
fn running<'m>(instr: Instr, entry: TermEntry, items: &'m [Kid]) -> Option<Running<'m>>
    ensures { result ≡ calls.running_in instr entry items.entry }
{
    match entry {
        TermEntry::Items { item, .. } => match instr.action {
            Action::Repeat { item: row, .. } => Some(Running {
                term: instr.term,
                sym: row.sym,
                items,
                item,
            }),
            _ => None,
        },
        _ => None,
    }
}

/// The highest call at an instruction, as expressions read it. What they don't ask for isn't lent.
#[derive(Drop)]
pub(crate) struct View<'v, 'm, A: Allocator> {
    pub tables: &'v Tables,
    pub top: &'v Top<'m, A>,
    pub size: u32,
    pub instr: &'v Instr,
}

impl<'v, 'm, A: Allocator + Clone + Drop> View<'v, 'm, A> {
    /// All that expressions may ask for.
    #[inline(always)]
    pub fn now(&self) -> Now<'v, A>
        ensures { Lends self.now (lent result) }
    {
        let top = self.top;
        let frame = top.frame;
        Now {
            tables: self.tables,
            store: &top.store,
            size: self.size,
            own: top.piles.own(frame.base),
            outer: top.piles.between(frame.outer.from, frame.outer.to),
            done: top.piles.done(frame.base),
            running: running(*self.instr, frame.entry, top.piles.items(frame.base)),
        }
    }
}

impl<'v, 'm, A: Allocator + Clone + Drop> Results for View<'v, 'm, A> {
    ghost use Rattle.ipg_mach_slot.specs.Now.{Lent, Stands};
    ghost use Rattle.ipg_mach.specs.Lending.{Lends};

    ghost stands = { λ view env. (l : Lent) → Lends view l → Stands l env };

    fn eoi(&self) -> u32 {
        self.now().eoi()
    }

    fn own(&self, attr: u32) -> Option<i64> {
        self.now().own(attr)
    }

    fn outer(&self, attr: u32) -> Option<i64> {
        self.now().outer(attr)
    }

    fn item(&self) -> Option<i64> {
        self.now().item()
    }

    #[inline(always)]
    fn seen(&self, term: u32, sym: &Sym, field: CoreField) -> Option<i64> {
        self.now().seen(term, sym, field)
    }

    fn item_field(&self, term: u32, index: i64, field: CoreField) -> Option<i64> {
        self.now().item_field(term, index, field)
    }

    fn greatest_end(&self, term: u32) -> Option<i64> {
        self.now().greatest_end(term)
    }
}

impl<'m, A: Allocator + Clone + Drop> Reader<'m, A> {
    /// What an instruction of the highest call comes to.
    fn at_instr(&mut self, top: &Top<'_, A>, instr: &Instr) -> AtHand
        ensures found { (src : Source) (frames : List Frame) (lower : List OpenCall) (c : OpenCall) (u : ℕ) (rest : List ℕ)
            → src.input ≡ self.old.input.now → IsWorking self.old.tables.now src (shown top.now) frames lower c → c.left ≡ u ∷ rest
            → HoldsInstr self.old.tables.now c.terms instr.now u
            → IsAtHand src top.now.store top.now.frame.from (calls.size_of top.now.frame) u c.state (items_in c.entry) c.frame top.now.frame.entry
            result (moves.at_hand silent c) }
        ensures tables { self.new.tables ≡ self.old.tables }
        ensures input { self.new.input ≡ self.old.input }
    {
        let frame = top.frame;
        let bytes = part(self.input, frame.from, frame.to);
        let site = PartSite {
            tables: self.tables,
            bytes,
            size: bytes.len() as u32,
        };
        let view = View {
            tables: self.tables,
            top,
            size: site.size,
            instr,
        };
        at_hand(
            &site,
            &top.store,
            &view,
            *instr,
            frame.entry,
            &mut self.numbers,
        )
    }

    /// What is found at the term at hand of the highest call.
    pub fn at_hand(&mut self, top: &Top<'_, A>) -> AtHand
        ensures found { (src : Source) (frames : List Frame) (lower : List OpenCall) (c : OpenCall) → src.input ≡ self.old.input.now
            → IsWorking self.old.tables.now src (shown top.now) frames lower c
            → IsAtHand src top.now.store top.now.frame.from (calls.size_of top.now.frame) (term_at_hand c.left) c.state (items_in c.entry) c.frame
            top.now.frame.entry result (moves.at_hand silent c) }
        ensures tables { self.new.tables ≡ self.old.tables }
        ensures input { self.new.input ≡ self.old.input }
    {
        match top.frame.left.first() {
            Some(instr) => self.at_instr(top, instr),
            None => AtHand::Makes(Advance::NoTree),
        }
    }
}

impl<'m, A: Allocator + Clone + Drop> Top<'m, A> {
    /// What the term at hand makes of the answer of the call that it made: of the child, or of that there is none.
    #[inline(always)]
    pub fn answered(&self, tables: &Tables, kid: Option<Kid>) -> Advance
        ensures { (src : Source) (frames : List Frame) (lower : List OpenCall) (c : OpenCall) (ask : Asked) (answer : Result Tree Stop)
            → IsWorking tables.now src (shown self.now) frames lower c → (moves.at_hand silent c).asked ≡ ask ∷ [] → EndsBy self.now.frame.entry ask.to
            → ask.from ≤ ask.to → ask.to ≤ calls.size_of self.now.frame → IsSub src self.now.store self.now.frame.from ask kid answer
            → IsAdvance src self.now.store self.now.frame.from (calls.size_of self.now.frame) (term_at_hand c.left) c.state (items_in c.entry) result
            (moves.at_hand (always answer) c).answer }
    {
        answered_is_taken();
        sub_ends_by();
        match self.frame.left.first() {
            Some(instr) => taken(tables, &self.store, instr.action, self.frame.entry, kid),
            None => Advance::NoTree,
        }
    }
}
