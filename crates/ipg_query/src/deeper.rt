//! What `**` takes of a spot: the spot itself, and what lies in it, where it is taken again.
ghost use Rattle.std.specs.Prelude.{◌≡◌, ℕ, true, List, [], ◌∷◌, ◌++◌, reverse, OnOk};
ghost use Rattle.ipg_core.specs.Grammar.{Grammar};
ghost use Rattle.ipg_core.specs.Tree as tree;
ghost use Rattle.ipg_core.specs.Tree.{Kids};
ghost use Rattle.ipg_mach_nodes.specs.Stored.{Source, Stored, StandsKid, StandKids};
ghost use Rattle.ipg_query_path.specs.declared.path.Step.{Step as PathStep};
ghost use Rattle.ipg_query.specs.Picked.{Found, found, each_of, below, all_in, all_of, members};
ghost use Rattle.ipg_query.specs.Spots.{AreNear, IsSpot, AreSpots, own, once_more, Rest, Comes, seen, seen_one};

use crate::left::{Left, push_left};
use crate::rows::{has_items, is_leaf, place_in, rows_in};
use crate::spot::{Spot, push};
use ipg_mach_nodes::Kid;
use ipg_query_path::Step;
use ipg_tree_walk::Parsed;
use std::alloc::{AllocError, Allocator};

/// Puts a spot behind the others, but no array and no repetition.
pub fn push_own(spots: &mut Vec<Spot>, spot: Spot) -> Result<(), AllocError>
    ensures { (src : Source) (st : Stored) (x : Found) (before : List Found) → IsSpot src st spot x → AreSpots src st spots.old.items before
        → OnOk result (AreSpots src st spots.new.items (before ++ own x)) }
{
    if has_items(spot.kid) {
        return Ok(());
    }
    push(spots, spot)
}

/// Whether a step takes children, so that it comes to nothing where nothing lies.
fn takes_children(step: &Step) -> bool
    ensures { (g : Grammar) (rest : List PathStep) (x : Found) → result ≡ true → below x ≡ [] → members g (step.now ∷ rest) (x ∷ []) ≡ [] }
{
    match step {
        Step::Named(_) => true,
        Step::Nth(_, _) => true,
        Step::Children => true,
        Step::All => false,
    }
}

/// Whether steps begin with `**` and then take children: nothing comes of them where nothing lies.
fn are_barren(steps: &[Step]) -> bool
    ensures { (g : Grammar) (x : Found) → result ≡ true → below x ≡ [] → all_of x ≡ x ∷ [] → members g steps.now (x ∷ []) ≡ [] }
{
    match steps.split_first() {
        Some((Step::All, rest)) => match rest.split_first() {
            Some((step, _)) => takes_children(step),
            None => false,
        },
        _ => false,
    }
}

/// Puts a spot on a pile, but for a leaf of which nothing comes.
fn pile_spot<'q>(pile: &mut Vec<Left<'q>>, steps: &'q [Step], spot: Spot) -> Result<(), AllocError>
    ensures { (src : Source) (st : Stored) (g : Grammar) (x : Found) (xs : List Found) → IsSpot src st spot x
        → Comes src st g (reverse (seen pile.old.items)) xs
        → OnOk result (Comes src st g (reverse (seen pile.new.items)) (members g steps.now (x ∷ []) ++ xs)) }
{
    if is_leaf(spot.kid) && are_barren(steps) {
        return Ok(());
    }
    push_left(pile, steps, spot)
}

/// The same of rows of one part, the first of them on top.
fn pile_rows<'q>(
    pile: &mut Vec<Left<'q>>,
    steps: &'q [Step],
    at: u32,
    rows: &[Kid],
) -> Result<(), AllocError>
    ensures { (src : Source) (st : Stored) (g : Grammar) (ones : Kids) (xs : List Found) → StandKids src st at rows.now ones → AreNear at ones
        → Comes src st g (reverse (seen pile.old.items)) xs
        → OnOk result (Comes src st g (reverse (seen pile.new.items)) (members g steps.now (each_of at ones) ++ xs)) }
{
    let mut left = rows.len();
    while left > 0 {
        left -= 1;
        pile_spot(
            pile,
            steps,
            Spot {
                at,
                kid: rows[left],
            },
        )?;
    }
    Ok(())
}

/// Puts on a pile where the first of the steps is to be taken once more.
pub fn pile_deeper<'q, A: Allocator + Clone + Drop>(
    p: &Parsed<'_, A>,
    pile: &mut Vec<Left<'q>>,
    steps: &'q [Step],
    step: &Step,
    spot: Spot,
) -> Result<(), AllocError>
    ensures { (src : Source) (g : Grammar) (rest : List PathStep) (x : Found) (xs : List Found) → steps.now ≡ step.now ∷ rest
        → IsSpot src p.now.parse.store spot x → Comes src p.now.parse.store g (reverse (seen pile.old.items)) xs
        → OnOk result (Comes src p.now.parse.store g (reverse (seen pile.new.items)) (once_more g step.now rest x ++ xs)) }
{
    match step {
        Step::All => pile_rows(pile, steps, place_in(spot), rows_in(p, spot.kid)),
        Step::Named(_) => Ok(()),
        Step::Nth(_, _) => Ok(()),
        Step::Children => Ok(()),
    }
}

/// Whether `**` takes of a spot the spot alone: no array, no repetition, and nothing lies in it.
fn is_alone<A: Allocator + Clone + Drop>(p: &Parsed<'_, A>, kid: Kid) -> bool
    ensures { (src : Source) (at place : ℕ) (one : tree.Kid) → StandsKid src p.now.parse.store at kid one → result ≡ true
        → all_in place one ≡ found place one ∷ [] }
{
    if has_items(kid) {
        return false;
    }
    rows_in(p, kid).is_empty()
}

/// The steps behind those at the front that are `**`.
fn behind_all(steps: &[Step]) -> &[Step]
    ensures { (g : Grammar) (x : Found) → all_of x ≡ x ∷ [] → members g result.now (x ∷ []) ≡ members g steps.now (x ∷ []) }
{
    let mut left = steps;
    while let Some((Step::All, rest)) = left.split_first() {
        left = rest;
    }
    left
}

/// Whether steps begin with `**` twice.
fn begin_with_two(steps: &[Step]) -> bool {
    matches!(steps, [Step::All, Step::All, ..])
}

/// The same to do without each `**` that takes the spot alone: so thousands of them in a path cost a leaf one turn.
pub fn without_idle<'q, A: Allocator + Clone + Drop>(p: &Parsed<'_, A>, next: Left<'q>) -> Left<'q>
    ensures { (src : Source) (g : Grammar) (more : List Rest) (xs : List Found) → Comes src p.now.parse.store g (seen_one next.entry ∷ more) xs
        → Comes src p.now.parse.store g (seen_one result ∷ more) xs }
{
    if begin_with_two(next.steps) && is_alone(p, next.spot.kid) {
        Left {
            steps: behind_all(next.steps),
            spot: next.spot,
        }
    } else {
        next
    }
}
