//! What has been counted.

ghost use Rattle.std.specs.Prelude.{◌≡◌, ℕ, List, Option};
ghost use Rattle.ipg_core.specs.Grammar.{Grammar};
ghost use Rattle.ipg_mach_moves.specs.Moves as moves;
ghost use Rattle.ipg_mach_moves.specs.Moves.{Known, Tally};
ghost use Rattle.ipg_mach.specs.Counted.{IsTally};

use ipg_tree_walk::Counts;

/// One body, where the rule is global.
fn body(holder: Option<(u32, u32)>) -> u64
    ensures { result ≡ moves.body holder }
{
    match holder {
        Some(_) => 0,
        None => 1,
    }
}

/// The first rule is open.
#[tactic(auto, unfolding(ipg_mach_moves::specs::Moves::opening))]
pub(crate) fn opening() -> Counts
    ensures { (g : Grammar) (s : List ℕ) (known : Option Known) → IsTally result (moves.opening g s known).tally }
{
    Counts {
        bodies: 1,
        hits: 0,
        deepest: 1,
    }
}

/// One answer more was known.
pub(crate) fn with_known(counts: Counts) -> Counts
    ensures { (t : Tally) → IsTally counts t → IsTally result (moves.one_known t) }
{
    Counts {
        hits: counts.hits.saturating_add(1),
        ..counts
    }
}

/// One call more is open, so many with it.
pub(crate) fn with_opened(counts: Counts, holder: Option<(u32, u32)>, open_calls: usize) -> Counts
    ensures { (t : Tally) → IsTally counts t → (place : Option (ℕ × ℕ)) → holder ≡ place → IsTally result (moves.one_opened t place open_calls) }
{
    Counts {
        bodies: counts.bodies.saturating_add(body(holder)),
        deepest: counts.deepest.max(open_calls as u64),
        ..counts
    }
}
