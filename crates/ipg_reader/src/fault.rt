//! Why bytes aren't read.

ghost use Rattle.std.specs.Prelude.{◌≡◌};
ghost use Rattle.ipg_reader.specs.Found.{Found, Gives, Ends, whole_of};

use std::alloc::{AllocError, AllocFailed};

/// Why a reader reads no further.
#[derive(Clone, Copy, Debug, Drop, PartialEq, Eq)]
pub enum Halt {
    /// Nothing goes on with the byte where the reader stands, or the bytes end there too early.
    Here,
    Memory,
}

impl From<AllocError> for Halt {
    ghost use Rattle.ipg_reader.specs.declared.fault.Halt.TheVariants.{Memory};

    ghost from_gives = { λ _ e. e ≡ Memory };

    fn from(_: AllocError) -> Halt {
        Halt::Memory
    }
}

impl<T: Drop> From<AllocFailed<T>> for Halt {
    ghost use Rattle.ipg_reader.specs.declared.fault.Halt.TheVariants.{Memory};

    ghost from_gives = { λ _ e. e ≡ Memory };

    fn from(_: AllocFailed<T>) -> Halt {
        Halt::Memory
    }
}

/// Why a text is none of those that are asked for.
#[derive(Clone, Copy, Debug, Drop, PartialEq, Eq)]
pub enum Fault {
    /// The first byte at fault, by its place; the text's length where it ends too early.
    At(u64),
    Memory,
}

impl From<AllocError> for Fault {
    ghost use Rattle.ipg_reader.specs.declared.fault.Fault.TheVariants.{Memory};

    ghost from_gives = { λ _ e. e ≡ Memory };

    fn from(_: AllocError) -> Fault {
        Fault::Memory
    }
}

/// What was read, if nothing is left of the text.
pub fn whole<A: Drop>(text: &[u8], left: &[u8], read: Result<A, Halt>) -> Result<A, Fault>
    ensures { (found : Found A) → Gives found left.now read → Ends (whole_of text.now found) result }
{
    let at = text.len().saturating_sub(left.len()) as u64;
    match read {
        Ok(value) => {
            if left.is_empty() {
                Ok(value)
            } else {
                Err(Fault::At(at))
            }
        }
        Err(Halt::Here) => Err(Fault::At(at)),
        Err(Halt::Memory) => Err(Fault::Memory),
    }
}
