//! Why a grammar's terms have no order.

ghost use Rattle.std.specs.Prelude.{◌≡◌};

use std::alloc::{AllocError, AllocFailed};
use thiserror::Error;

/// A refusal, or want of memory.
#[derive(Clone, Copy, Debug, Error, PartialEq, Eq)]
pub enum OrderFault {
    /// Terms of an alternative wait for each other: the first alternative with such terms, and the leftmost of its terms
    /// that can't run after as many terms as can have. Each is a number from 0.
    #[error("terms wait for each other")]
    Circular { rule: u32, alt: u32, term: u32 },
    /// No memory was left.
    #[error("no memory is left")]
    Memory,
}

impl From<AllocError> for OrderFault {
    ghost use Rattle.ipg_order.specs.declared.fault.OrderFault.TheVariants.{Memory};

    ghost from_gives = { λ _ e. e ≡ Memory };

    fn from(_: AllocError) -> OrderFault {
        OrderFault::Memory
    }
}

impl<T: Drop> From<AllocFailed<T>> for OrderFault {
    ghost use Rattle.ipg_order.specs.declared.fault.OrderFault.TheVariants.{Memory};

    ghost from_gives = { λ _ e. e ≡ Memory };

    fn from(_: AllocFailed<T>) -> OrderFault {
        OrderFault::Memory
    }
}
