//! What lies in a row of a stored tree.
ghost use Rattle.std.specs.Prelude.{◌≡◌, ℕ, true, [], ◌∷◌};
ghost use Rattle.ipg_core.specs.Tree as tree;
ghost use Rattle.ipg_mach_nodes.specs.Stored.{Source, Stored, StandsKid, StandKids};
ghost use Rattle.ipg_tree_walk.specs.Visits.{kids_in, place_in};
ghost use Rattle.ipg_mach_results.specs.Flat as flat;
ghost use Rattle.ipg_query.specs.Picked.{found, below_in, all_in};
ghost use Rattle.ipg_query.specs.Spots.{IsNear};

use crate::spot::Spot;
use ipg_mach_nodes::Kid;
use ipg_tree_walk::Parsed;
use std::alloc::Allocator;

/// Whether it is an array or a repetition.
pub fn has_items(kid: Kid) -> bool
    ensures { (src : Source) (st : Stored) (at : ℕ) (one : tree.Kid) → StandsKid src st at kid one → result ≡ flat.has_items one }
{
    matches!(kid, Kid::Array { .. } | Kid::Many { .. })
}

/// Whether nothing can lie in it.
pub fn is_leaf(kid: Kid) -> bool
    ensures { (src : Source) (st : Stored) (at place : ℕ) (one : tree.Kid) → StandsKid src st at kid one → result ≡ true
        → (below_in place one ≡ []) × (all_in place one ≡ found place one ∷ []) }
{
    match kid {
        Kid::Text { .. } => true,
        Kid::Number { .. } => true,
        Kid::Raw { .. } => true,
        Kid::Node { .. } => false,
        Kid::Array { .. } => false,
        Kid::Many { .. } => false,
    }
}

/// The place of the input where the part begins that the rows in it lie in.
pub fn place_in(spot: Spot) -> u32
    ensures { (src : Source) (st : Stored) (one : tree.Kid) → StandsKid src st spot.at spot.kid one → IsNear spot.at one → result ≡ place_in spot.at one }
{
    match spot.kid {
        Kid::Node { from, .. } => spot.at.saturating_add(from),
        Kid::Text { .. } => spot.at,
        Kid::Number { .. } => spot.at,
        Kid::Raw { .. } => spot.at,
        Kid::Array { .. } => spot.at,
        Kid::Many { .. } => spot.at,
    }
}

/// The rows of the children of a node, or of the items of an array or a repetition.
pub fn rows_in<'b, A: Allocator + Clone + Drop>(p: &'b Parsed<'_, A>, kid: Kid) -> &'b [Kid]
    ensures { (src : Source) (at : ℕ) (one : tree.Kid) → StandsKid src p.now.parse.store at kid one
        → StandKids src p.now.parse.store (place_in at one) result.now (kids_in one) }
{
    match kid {
        Kid::Node { id, .. } => p.kids(id),
        Kid::Array { items, .. } => p.items(items),
        Kid::Many { items, .. } => p.items(items),
        Kid::Text { .. } => &[],
        Kid::Number { .. } => &[],
        Kid::Raw { .. } => &[],
    }
}
