//! Spots of a stored tree, and lists of them.
ghost use Rattle.std.specs.Prelude.{◌≡◌, ◌++◌, [], ◌∷◌, OnOk};

use ipg_mach_nodes::Kid;
use std::alloc::AllocError;

/// More of them in one list count as want of memory.
pub const MOST: usize = 1 << 24;

/// A longer list counts as want of memory.
pub const TOO_MANY: AllocError = AllocError;

/// A row of a stored tree, and the place of the input where the part begins that it lies in.
#[derive(Clone, Copy, Debug, PartialEq, Eq)]
pub struct Spot {
    pub at: u32,
    pub kid: Kid,
}

/// Puts a spot behind others.
pub fn push(spots: &mut Vec<Spot>, spot: Spot) -> Result<(), AllocError>
    ensures { OnOk result (spots.new.items ≡ spots.old.items ++ spot ∷ []) }
{
    if spots.len() >= MOST {
        return Err(TOO_MANY);
    }
    spots.push(spot)?;
    Ok(())
}
