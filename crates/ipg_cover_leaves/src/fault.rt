//! Why leaves can't be put back.
ghost use Rattle.std.specs.Prelude.{◌≡◌};

use std::alloc::AllocError;

/// What is at fault, the first that holds.
#[derive(Clone, Copy, Debug, Drop, PartialEq, Eq)]
pub enum PutFault {
    /// The number of a leaf is none that its primitive can have. Leaves are counted from 0.
    Value { leaf: u64 },
    /// A leaf has a byte at or past the length.
    Outside { leaf: u64 },
    /// The least place where two leaves put different bytes.
    Clash { at: u32 },
    /// The least place where no leaf puts a byte.
    Gap { at: u32 },
    Memory,
}

impl From<AllocError> for PutFault {
    ghost use Rattle.ipg_cover_leaves.specs.declared.fault.PutFault.TheVariants.{Memory};

    ghost from_gives = { λ _ fault. fault ≡ Memory };

    fn from(_: AllocError) -> PutFault {
        PutFault::Memory
    }
}
