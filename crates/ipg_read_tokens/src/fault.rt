ghost use Rattle.std.specs.Prelude.{◌≡◌};
ghost use Rattle.ipg_read_tokens.specs.declared.fault.ReadFault.TheVariants.{Memory};

use std::alloc::{AllocError, AllocFailed};
use thiserror::Error;

/// A limit of the grammar's size.
#[derive(Clone, Copy, Debug, PartialEq, Eq)]
pub enum Which {
    Rules,
    Alternatives,
    Terms,
    Depth,
}

/// Why a text is no grammar; places are bytes of the text.
#[derive(Debug, Drop, Error)]
pub enum ReadFault {
    #[error("the text has more than 2^20 bytes")]
    TooLong,
    #[error("no token begins at {at}")]
    Lex { at: u32 },
    #[error("the number at {at} is above 2^63 - 1")]
    Number { at: u32 },
    #[error("no grammar goes on so at {at}")]
    Syntax { at: u32 },
    #[error("past a limit at {at}")]
    Limit { which: Which, at: u32 },
    #[error("out of memory")]
    Memory,
}

impl From<AllocError> for ReadFault {
    ghost from_gives = { λ _ e. e ≡ Memory };

    fn from(_e: AllocError) -> ReadFault {
        ReadFault::Memory
    }
}

impl<T: Drop> From<AllocFailed<T>> for ReadFault {
    ghost from_gives = { λ _ e. e ≡ Memory };

    fn from(_e: AllocFailed<T>) -> ReadFault {
        ReadFault::Memory
    }
}
