//! What lies below a spot.
ghost use Rattle.std.specs.Prelude.{◌≡◌, ℕ, List, [], ◌∷◌, ◌++◌, filter, OnOk};
ghost use Rattle.ipg_core.specs.Grammar.{Grammar};
ghost use Rattle.ipg_core.specs.Tree as tree;
ghost use Rattle.ipg_core.specs.Tree.{Kids};
ghost use Rattle.ipg_mach_nodes.specs.Stored.{Source, StandsKid, StandKids};
ghost use Rattle.ipg_table.specs.Rows.{StandFor};
ghost use Rattle.ipg_query.specs.Picked.{Found, each_of, spread, spread_each, below};
ghost use Rattle.ipg_query.specs.Spots.{IsNear, AreNear, IsSpot, AreSpots, fits};

use crate::names::{Wanted, is_wanted};
use crate::rows::{has_items, place_in, rows_in};
use crate::spot::{Spot, push};
use ipg_mach_nodes::Kid;
use ipg_tree_walk::Parsed;
use std::alloc::{AllocError, Allocator};

/// Puts a spot behind the others, where it is wanted.
fn push_wanted<A: Allocator + Clone + Drop>(
    p: &Parsed<'_, A>,
    spots: &mut Vec<Spot>,
    wanted: Wanted<'_>,
    spot: Spot,
) -> Result<(), AllocError>
    ensures { (src : Source) (g : Grammar) (x : Found) (before : List Found) → StandFor p.now.parse.tables g → IsSpot src p.now.parse.store spot x
        → AreSpots src p.now.parse.store spots.old.items before
        → OnOk result (AreSpots src p.now.parse.store spots.new.items (before ++ filter (fits g wanted.entry) (x ∷ []))) }
{
    if is_wanted(p, spot.kid, wanted) {
        return push(spots, spot);
    }
    Ok(())
}

/// Puts those rows of one part behind the spots that are wanted.
fn push_rows<A: Allocator + Clone + Drop>(
    p: &Parsed<'_, A>,
    spots: &mut Vec<Spot>,
    wanted: Wanted<'_>,
    at: u32,
    rows: &[Kid],
) -> Result<(), AllocError>
    ensures { (src : Source) (g : Grammar) (ones : Kids) (before : List Found) → StandFor p.now.parse.tables g
        → StandKids src p.now.parse.store at rows.now ones → AreNear at ones → AreSpots src p.now.parse.store spots.old.items before
        → OnOk result (AreSpots src p.now.parse.store spots.new.items (before ++ filter (fits g wanted.entry) (each_of at ones))) }
{
    for row in rows {
        push_wanted(p, spots, wanted, Spot { at, kid: *row })?;
    }
    Ok(())
}

/// Puts a row behind the spots, or the items of an array or a repetition, where they are wanted.
fn push_spread<A: Allocator + Clone + Drop>(
    p: &Parsed<'_, A>,
    spots: &mut Vec<Spot>,
    wanted: Wanted<'_>,
    at: u32,
    row: Kid,
) -> Result<(), AllocError>
    ensures { (src : Source) (g : Grammar) (one : tree.Kid) (before : List Found) → StandFor p.now.parse.tables g
        → StandsKid src p.now.parse.store at row one → IsNear at one → AreSpots src p.now.parse.store spots.old.items before
        → OnOk result (AreSpots src p.now.parse.store spots.new.items (before ++ filter (fits g wanted.entry) (spread at one))) }
{
    if has_items(row) {
        return push_rows(p, spots, wanted, at, rows_in(p, row));
    }
    push_wanted(p, spots, wanted, Spot { at, kid: row })
}

/// The same of each row.
fn spread_each<A: Allocator + Clone + Drop>(
    p: &Parsed<'_, A>,
    spots: &mut Vec<Spot>,
    wanted: Wanted<'_>,
    at: u32,
    rows: &[Kid],
) -> Result<(), AllocError>
    ensures { (src : Source) (g : Grammar) (ones : Kids) (before : List Found) → StandFor p.now.parse.tables g
        → StandKids src p.now.parse.store at rows.now ones → AreNear at ones → AreSpots src p.now.parse.store spots.old.items before
        → OnOk result (AreSpots src p.now.parse.store spots.new.items (before ++ filter (fits g wanted.entry) (spread_each at ones))) }
{
    for row in rows {
        push_spread(p, spots, wanted, at, *row)?;
    }
    Ok(())
}

/// Puts the children of a node behind the spots that are wanted, each array and repetition replaced by its items.
pub fn push_below<A: Allocator + Clone + Drop>(
    p: &Parsed<'_, A>,
    spots: &mut Vec<Spot>,
    wanted: Wanted<'_>,
    spot: Spot,
) -> Result<(), AllocError>
    ensures { (src : Source) (g : Grammar) (x : Found) (before : List Found) → StandFor p.now.parse.tables g → IsSpot src p.now.parse.store spot x
        → AreSpots src p.now.parse.store spots.old.items before
        → OnOk result (AreSpots src p.now.parse.store spots.new.items (before ++ filter (fits g wanted.entry) (below x))) }
{
    if has_items(spot.kid) {
        return Ok(());
    }
    spread_each(p, spots, wanted, place_in(spot), rows_in(p, spot.kid))
}
