//! Ends before an answer.
ghost use Rattle.std.specs.Prelude.{◌≡◌};
ghost use Rattle.ipg_app_text.specs.Early.{of_reason};

use crate::reasons::Reason;
use crate::said::Settled;
use std::alloc::AllocError;

/// What ends a call before its answer: this is to be said, or memory is wanting.
#[derive(Drop)]
pub enum Early<S: Drop> {
    Said(S),
    Memory,
}

impl<S: Drop> From<AllocError> for Early<S> {
    ghost use Rattle.ipg_app_text.specs.declared.early.Early.TheVariants.{Memory};

    ghost from_gives = { λ _ e. e ≡ Memory };

    fn from(_: AllocError) -> Early<S> {
        Early::Memory
    }
}

/// A reason is said by its words alone; where the text is at fault is for `explain`.
impl From<Early<Reason>> for Early<Settled> {
    ghost from_gives = { λ early e. e ≡ of_reason early };

    fn from(early: Early<Reason>) -> Early<Settled> {
        match early {
            Early::Said(reason) => Early::Said(reason.said),
            Early::Memory => Early::Memory,
        }
    }
}
