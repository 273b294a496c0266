//! What is left to be done of a path, at spots.
ghost use Rattle.std.specs.Prelude.{◌≡◌, ◌++◌, [], ◌∷◌, map, reverse, OnOk};
ghost use Rattle.ipg_query.specs.Spots.{seen, left_at};

use crate::spot::{MOST, Spot, TOO_MANY};
use ipg_query_path::Step;
use std::alloc::AllocError;

/// A spot, and the steps of a path that are to be taken from there on.
#[derive(Clone, Copy)]
pub struct Left<'q> {
    pub steps: &'q [Step],
    pub spot: Spot,
}

/// Puts a spot on a pile.
pub fn push_left<'q>(
    pile: &mut Vec<Left<'q>>,
    steps: &'q [Step],
    spot: Spot,
) -> Result<(), AllocError>
    ensures { OnOk result (seen pile.new.items ≡ seen pile.old.items ++ left_at steps.now spot ∷ []) }
{
    if pile.len() >= MOST {
        return Err(TOO_MANY);
    }
    pile.push(Left { steps, spot })?;
    Ok(())
}

/// Puts spots on a pile, the first of them on top.
pub fn pile_up<'q>(
    pile: &mut Vec<Left<'q>>,
    steps: &'q [Step],
    spots: &[Spot],
) -> Result<(), AllocError>
    ensures { OnOk result (seen pile.new.items ≡ seen pile.old.items ++ reverse (map (left_at steps.now) spots.now)) }
{
    let mut left = spots.len();
    while left > 0 {
        left -= 1;
        push_left(pile, steps, spots[left])?;
    }
    Ok(())
}
