//! What a step takes of spots.
ghost use Rattle.std.specs.Prelude.{◌≡◌, ℕ, List, ◌++◌, OnOk, IfOk};
ghost use Rattle.ipg_core.specs.Grammar.{Grammar};
ghost use Rattle.ipg_mach_nodes.specs.Stored.{Source, Stored};
ghost use Rattle.ipg_table.specs.Rows.{StandFor};
ghost use Rattle.ipg_query.specs.Picked.{Found, named, only};
ghost use Rattle.ipg_query.specs.Spots.{IsSpot, AreSpots, taken};

use crate::below::push_below;
use crate::deeper::push_own;
use crate::names::Wanted;
use crate::spot::{Spot, push};
use ipg_num::item_at;
use ipg_query_path::Step;
use ipg_tree_walk::Parsed;
use std::alloc::{AllocError, Allocator, Global};

/// The children of a spot whose symbol has this name.
fn named<A: Allocator + Clone + Drop>(
    alloc: Global,
    p: &Parsed<'_, A>,
    name: &[u8],
    spot: Spot,
) -> Result<Vec<Spot>, AllocError>
    ensures { (src : Source) (g : Grammar) (x : Found) → StandFor p.now.parse.tables g → IsSpot src p.now.parse.store spot x
        → IfOk result (λ spots. AreSpots src p.now.parse.store spots.items (named g name.now x)) }
{
    let mut spots = Vec::new(alloc);
    push_below(p, &mut spots, Wanted::Named(name), spot)?;
    Ok(spots)
}

/// Puts the spot of this number behind the others, where there is one.
fn push_only(spots: &mut Vec<Spot>, from: &[Spot], nth: u32) -> Result<(), AllocError>
    ensures { (src : Source) (st : Stored) (xs before : List Found) → AreSpots src st from.now xs → AreSpots src st spots.old.items before
        → OnOk result (AreSpots src st spots.new.items (before ++ only xs nth)) }
{
    match item_at(from, nth as usize) {
        Some(spot) => push(spots, *spot),
        None => Ok(()),
    }
}

/// Puts what a step takes of a spot behind the others; of `**` that is the spot alone.
pub fn push_taken<A: Allocator + Clone + Drop>(
    alloc: Global,
    p: &Parsed<'_, A>,
    spots: &mut Vec<Spot>,
    step: &Step,
    spot: Spot,
) -> Result<(), AllocError>
    ensures { (src : Source) (g : Grammar) (x : Found) (before : List Found) → StandFor p.now.parse.tables g → IsSpot src p.now.parse.store spot x
        → AreSpots src p.now.parse.store spots.old.items before
        → OnOk result (AreSpots src p.now.parse.store spots.new.items (before ++ taken g step.now x)) }
{
    match step {
        Step::Named(name) => push_below(p, spots, Wanted::Named(name.as_slice()), spot),
        Step::Nth(name, nth) => { push_only(spots, &named(alloc, p, name.as_slice(), spot)?, *nth) }
        Step::Children => push_below(p, spots, Wanted::Any, spot),
        Step::All => push_own(spots, spot),
    }
}
