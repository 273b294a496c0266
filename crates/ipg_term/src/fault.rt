//! Why a grammar isn't accepted.

ghost use Rattle.std.specs.Prelude.{◌≡◌};

use ipg_core::accepted::Core;
use ipg_num::List;
use std::alloc::AllocError;
use thiserror::Error;

/// Why no certificate was made.
#[derive(Debug, Drop, Error)]
pub enum TermWhy {
    /// The first simple cycle of calls whose conditions can hold together, by the numbers of its edges, and values that
    /// solve its joint conditions; the first of them is the least length of the part at which there are any.
    #[error("a cycle of calls may keep the whole part")]
    MayLoop { cycle: List<u32>, values: List<i64> },
    /// No memory was left.
    #[error("no memory is left")]
    Memory,
}

impl From<AllocError> for TermWhy {
    ghost use Rattle.ipg_term.specs.declared.fault.TermWhy.TheVariants.{Memory};

    ghost from_gives = { λ _ e. e ≡ Memory };

    fn from(_: AllocError) -> TermWhy {
        TermWhy::Memory
    }
}

/// The grammar that isn't accepted, given back, and why.
#[derive(Drop)]
pub struct TermFault {
    pub grammar: Core,
    pub why: TermWhy,
}
