//! Selects what a path picks.
ghost use Rattle.std.specs.Prelude.{◌≡◌, ◌<◌, ℕ, List, [], ◌∷◌, ◌++◌, length, reverse, IfOk, OnOk};
ghost use Rattle.ipg_core.specs.Grammar.{Grammar};
ghost use Rattle.ipg_core.specs.Tree as tree;
ghost use Rattle.ipg_core.specs.Tree.{Tree};
ghost use Rattle.ipg_mach_nodes.specs.Stored.{Source, Stored, StandsKid};
ghost use Rattle.ipg_table.specs.Rows.{Each, StandFor};
ghost use Rattle.ipg_tree_walk.specs.Visits.{whole, from_of, to_of};
ghost use Rattle.ipg_query.specs.Hits.{IsHit, Shares, IsTree};
ghost use Rattle.ipg_query.specs.Picked as picked;
ghost use Rattle.ipg_query.specs.Picked.{Found, Pick, found, shown};
ghost use Rattle.ipg_query.specs.Spots.{IsSpot, AreSpots, IsShown, Comes, ReachesIf, seen, seen_one};

use crate::deeper::{pile_deeper, without_idle};
use crate::fields::field_named;
use crate::hit::Hit;
use crate::left::{Left, pile_up, push_left};
use crate::spot::{MOST, Spot, TOO_MANY, push};
use crate::steps::push_taken;
use ipg_mach_nodes::Kid;
use ipg_query_path::{Name, Query};
use ipg_tree_walk::Parsed;
use std::alloc::{AllocError, Allocator, Global};

/// So many turns count as want of memory.
const TOO_MANY_TURNS: AllocError = AllocError;

/// The root of a parsed tree, on the whole input.
fn root_of<A: Allocator + Clone + Drop>(p: &Parsed<'_, A>) -> Spot
    ensures { (src : Source) (g : Grammar) (one : Tree) → IsTree p.now.parse src g one → IsSpot src p.now.parse.store result (found 0 (whole one)) }
{
    let id = p.root();
    let to = p.size(id);
    Spot {
        at: 0,
        kid: Kid::Node { id, from: 0, to },
    }
}

/// The ends of the interval of a row in its parent's part.
fn interval_of(kid: Kid) -> (u32, u32)
    ensures { (src : Source) (st : Stored) (at : ℕ) (one : tree.Kid) → StandsKid src st at kid one → (result.0 ≡ from_of one) × (result.1 ≡ to_of one) }
{
    match kid {
        Kid::Node { from, to, .. } => (from, to),
        Kid::Text { from, to, .. } => (from, to),
        Kid::Number { from, to, .. } => (from, to),
        Kid::Raw { from, to } => (from, to),
        Kid::Array { .. } => (0, 0),
        Kid::Many { .. } => (0, 0),
    }
}

/// The part of the input that a spot is.
fn part_of<'a, A: Allocator + Clone + Drop>(p: &Parsed<'a, A>, spot: Spot) -> Hit<'a>
    ensures { (src : Source) (x : Found) → IsSpot src p.now.parse.store spot x → IsHit result (picked.part_of p.now.parse.input x) }
{
    let interval = interval_of(spot.kid);
    let from = spot.at.saturating_add(interval.0);
    let to = spot.at.saturating_add(interval.1);
    Hit::Part {
        from,
        to,
        bytes: p.part(u64::from(from), u64::from(to)),
    }
}

/// What is shown of a spot, by the field that is asked for; None where it hasn't that.
fn hit_of<'a, A: Allocator + Clone + Drop>(
    p: &Parsed<'a, A>,
    field: &Option<Name>,
    spot: Spot,
) -> Option<Hit<'a>>
    ensures { (src : Source) (g : Grammar) (x : Found) → Shares p.now.parse src g → IsSpot src p.now.parse.store spot x
        → IsShown result (shown g p.now.parse.input field.now x) }
{
    match field {
        None => Some(part_of(p, spot)),
        Some(name) => match field_named(p, spot, name.as_slice()) {
            Some(value) => Some(Hit::Value(value)),
            None => None,
        },
    }
}

/// Puts what is shown of a spot behind the others.
fn push_hit<'a, A: Allocator + Clone + Drop>(
    p: &Parsed<'a, A>,
    hits: &mut Vec<Hit<'a>>,
    field: &Option<Name>,
    spot: Spot,
) -> Result<(), AllocError>
    ensures { (src : Source) (g : Grammar) (x : Found) (before : List Pick) → Shares p.now.parse src g → IsSpot src p.now.parse.store spot x
        → Each IsHit hits.old.items before → OnOk result (Each IsHit hits.new.items (before ++ shown g p.now.parse.input field.now x)) }
{
    match hit_of(p, field, spot) {
        Some(hit) => {
            if hits.len() >= MOST {
                return Err(TOO_MANY);
            }
            hits.push(hit)?;
            Ok(())
        }
        None => Ok(()),
    }
}

/// Takes the first of the steps that are left: what comes of that is on the pile, the first on top.
/// In `spots` any may stand, before and after.
fn take<'q, A: Allocator + Clone + Drop>(
    alloc: Global,
    p: &Parsed<'_, A>,
    pile: &mut Vec<Left<'q>>,
    spots: &mut Vec<Spot>,
    next: Left<'q>,
) -> Result<(), AllocError>
    ensures { (src : Source) (g : Grammar) (xs : List Found) → StandFor p.now.parse.tables g → 0 < length next.entry.steps.now
        → Comes src p.now.parse.store g (seen_one next.entry ∷ reverse (seen pile.old.items)) xs
        → OnOk result (Comes src p.now.parse.store g (reverse (seen pile.new.items)) xs) }
{
    match next.steps.split_first() {
        Some((step, rest)) => {
            pile_deeper(p, pile, next.steps, step, next.spot)?;
            spots.clear();
            push_taken(alloc, p, spots, step, next.spot)?;
            pile_up(pile, rest, spots)
        }
        None => Ok(()),
    }
}

/// The next result that is come to, taken off the pile; None where nothing is left. In `spots` any may stand, before and after.
fn next_member<'q, A: Allocator + Clone + Drop>(
    alloc: Global,
    p: &Parsed<'_, A>,
    pile: &mut Vec<Left<'q>>,
    spots: &mut Vec<Spot>,
) -> Result<Option<Spot>, AllocError>
    ensures { (src : Source) (g : Grammar) (xs : List Found) → StandFor p.now.parse.tables g
        → Comes src p.now.parse.store g (reverse (seen pile.old.items)) xs
        → IfOk result (λ next. ReachesIf src p.now.parse.store g next (reverse (seen pile.new.items)) xs) }
{
    'piled: for _ in 0..u64::MAX {
        match pile.pop() {
            Some(top) => {
                let next = without_idle(p, top);
                if next.steps.is_empty() {
                    return Ok(Some(next.spot));
                }
                take(alloc, p, pile, spots, next)?
            }
            None => return Ok(None),
        }
    }
    Err(TOO_MANY_TURNS)
}

/// What the steps of a path come to in a parsed tree, in order; doubles stay.
pub fn members<A: Allocator + Clone + Drop>(
    alloc: Global,
    query: &Query,
    p: &Parsed<'_, A>,
) -> Result<Vec<Spot>, AllocError>
    ensures { (src : Source) (g : Grammar) (one : Tree) → IsTree p.now.parse src g one
        → IfOk result (λ spots. AreSpots src p.now.parse.store spots.items (picked.members g query.now.steps (found 0 (whole one) ∷ []))) }
{
    let mut found = Vec::new(alloc);
    let mut pile = Vec::new(alloc);
    let mut spots = Vec::new(alloc);
    push_left(&mut pile, query.steps.as_slice(), root_of(p))?;
    'piled: for _ in 0..u64::MAX {
        match next_member(alloc, p, &mut pile, &mut spots)? {
            Some(spot) => push(&mut found, spot)?,
            None => return Ok(found),
        }
    }
    Err(TOO_MANY_TURNS)
}

/// What a path picks of a parsed tree, in order; doubles stay.
pub fn select<'a, A: Allocator + Clone + Drop>(
    alloc: Global,
    query: &Query,
    p: &Parsed<'a, A>,
) -> Result<Vec<Hit<'a>>, AllocError>
    ensures { (src : Source) (g : Grammar) (one : Tree) → IsTree p.now.parse src g one
        → IfOk result (λ hits. Each IsHit hits.items (picked.picked g p.now.parse.input query.now one)) }
{
    let mut hits = Vec::new(alloc);
    let mut pile = Vec::new(alloc);
    let mut spots = Vec::new(alloc);
    push_left(&mut pile, query.steps.as_slice(), root_of(p))?;
    'piled: for _ in 0..u64::MAX {
        match next_member(alloc, p, &mut pile, &mut spots)? {
            Some(spot) => push_hit(p, &mut hits, &query.field, spot)?,
            None => return Ok(hits),
        }
    }
    Err(TOO_MANY_TURNS)
}
