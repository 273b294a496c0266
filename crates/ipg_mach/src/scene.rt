//! The term at hand of the highest call, with what its expressions read.

ghost use Rattle.std.specs.Prelude.{◌≡◌, ◌<◌, ◌^◌, ◌∷◌, ℕ, List, length};
ghost use Rattle.ipg_core.specs.Part.{part as part_of};
ghost use Rattle.ipg_mach_moves.specs.Moves.{OpenCall, Evaluation};
ghost use Rattle.ipg_mach_nodes.specs.Stored.{Source};
ghost use Rattle.ipg_table.specs.Rows.{HoldsInstr};
ghost use Rattle.ipg_mach.specs.Calls.{shown, IsWorking};
ghost use Rattle.ipg_mach.specs.Scene.{IsScene, IsSceneOf, ShowsAtHand};
ghost use Rattle.ipg_mach.specs.Stage.{staged, IsAt};
ghost use Rattle.ipg_mach.specs.declared.frame.Frame.{Frame};

use crate::machine::Machine;
use crate::reader::{Reader, View, part};
use crate::top::Top;
use ipg_mach_nodes::Kid;
use ipg_mach_slot::{Now, PartSite};
use ipg_mach_term::TermEntry;
use ipg_table::row::Instr;
use std::alloc::Allocator;

/// The term at hand of the highest call, lent: the tables and the call's part, what expressions read, the items of the term
/// so far, its instruction and where it was entered; the call by its rule and alternative and its interval of the input.
#[derive(Drop)]
pub struct Scene<'s, A: Allocator> {
    pub site: PartSite<'s>,
    pub now: Now<'s, A>,
    pub items: &'s [Kid],
    pub instr: Instr,
    pub entry: TermEntry,
    pub rule: u32,
    pub alt: u32,
    pub from: u32,
    pub to: u32,
}

impl<'m, A: Allocator + Clone + Drop> Reader<'m, A> {
    /// A part of the input, with the tables.
    fn site<'s>(&'s self, from: u32, to: u32) -> PartSite<'s>
        ensures tables { result.tables.now ≡ self.now.tables.now }
        ensures part { result.bytes.now ≡ part_of self.now.input.now from to }
        ensures small { length result.bytes.now < 2 ^ 32 }
    {
        let bytes = part(self.input, from, to);
        PartSite {
            tables: self.tables,
            bytes,
            size: bytes.len() as u32,
        }
    }

    /// The highest call at an instruction.
    fn scene_at<'s>(&'s self, top: &'s Top<'m, A>, instr: &'s Instr) -> Scene<'s, A>
        ensures { (src : Source) (frames : List Frame) (lower : List OpenCall) (c : OpenCall) (u : ℕ) (rest : List ℕ)
            → src.input ≡ self.now.input.now → IsWorking self.now.tables.now src (shown top.now) frames lower c → c.left ≡ u ∷ rest
            → HoldsInstr self.now.tables.now c.terms instr.now u → IsScene src result c }
    {
        let frame = top.frame;
        let site = self.site(frame.from, frame.to);
        let view = View {
            tables: self.tables,
            top,
            size: site.size,
            instr,
        };
        Scene {
            site,
            now: view.now(),
            items: top.piles.items(frame.base),
            instr: *instr,
            entry: frame.entry,
            rule: frame.rule,
            alt: frame.alt,
            from: frame.from,
            to: frame.to,
        }
    }

    /// The term at hand of the highest call.
    fn scene<'s>(&'s self, top: &'s Top<'m, A>) -> Option<Scene<'s, A>>
        ensures { (src : Source) (frames : List Frame) (lower : List OpenCall) (c : OpenCall) → src.input ≡ self.now.input.now
            → IsWorking self.now.tables.now src (shown top.now) frames lower c → ShowsAtHand src result c }
    {
        match top.frame.left.first() {
            Some(instr) => Some(self.scene_at(top, instr)),
            None => None,
        }
    }
}

impl<'m, A: Allocator + Clone + Drop> Machine<'m, A> {
    /// The term at hand of the highest call; None where that holds its answer. Takes no memory.
    pub fn scene(&self) -> Option<Scene<'_, A>>
        ensures { (src : Source) (e : Evaluation) → IsAt src (staged self.now.work) e → IsSceneOf src result e.highest }
    {
        match self.work.top.answer {
            Some(_) => None,
            None => self.work.reader.scene(&self.work.top),
        }
    }
}
