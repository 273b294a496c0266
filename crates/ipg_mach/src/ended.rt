//! What an evaluation has ended with.

ghost use Rattle.std.specs.Prelude.{◌≡◌, length, nat_eq, if◌then◌else◌, Some, None};
ghost use Rattle.ipg_mach_moves.specs.Moves.{Evaluation, ended};
ghost use Rattle.ipg_mach_nodes.specs.Stored.{Source};
ghost use Rattle.ipg_mach.specs.Ended.{ending_of};
ghost use Rattle.ipg_mach.specs.Stage.{staged, IsAt};

use crate::frame::HeldAnswer;
use crate::machine::Machine;
use crate::work::Work;
use std::alloc::Allocator;

/// The answer with which an evaluation has ended, without its tree.
#[derive(Clone, Copy, Debug, PartialEq, Eq)]
pub enum Ended {
    Tree,
    NoTree,
    /// A value left 64 bits.
    Range,
}

impl<'m, A: Allocator + Clone + Drop> Work<'m, A> {
    /// The ending by this answer, where no call waits for the highest one.
    fn ending_below(&self, ending: Ended) -> Option<Ended>
        ensures { result ≡ (if nat_eq (length self.now.frames.items) 0 then Some ending else None) }
    {
        if self.frames.is_empty() {
            Some(ending)
        } else {
            None
        }
    }

    /// The ending where the highest call holds this answer.
    fn ending_with(&self, held: HeldAnswer) -> Option<Ended>
        ensures { (src : Source) (e : Evaluation) → IsAt src (staged self.now) e → self.now.top.answer ≡ Some held → result ≡ ending_of (ended e) }
    {
        match held {
            HeldAnswer::Range => Some(Ended::Range),
            HeldAnswer::NoTree => self.ending_below(Ended::NoTree),
            HeldAnswer::Node(_) => self.ending_below(Ended::Tree),
        }
    }
}

impl<'m, A: Allocator + Clone + Drop> Machine<'m, A> {
    /// What the evaluation has ended with; None while it goes on.
    pub fn ending(&self) -> Option<Ended>
        ensures { (src : Source) (e : Evaluation) → IsAt src (staged self.now.work) e → result ≡ ending_of (ended e) }
    {
        match self.work.top.answer {
            Some(held) => self.work.ending_with(held),
            None => None,
        }
    }
}
