//! Laws of covering, each the contract of a function that calls the laws it stands on.

ghost use Rattle.ipg_cover_laws.specs.Covered.{CoveredComesBack};
ghost use Rattle.ipg_cover_laws.specs.Gapless.{GaplessComesBack};
ghost use Rattle.ipg_cover_laws.specs.Missed.{MissedPlacesSolve};

use ipg_cert::laws::checks_refute;
use ipg_core::laws::{asks_what_fits, holds_its_bytes, lies_within};
use ipg_cover_leaves::laws::{all_put_comes_back, answers_are_one, covered_is_put};
use ipg_facts_laws::ending::calls_are_edges;
use ipg_facts_laws::laws::all_missed_solve;

/// A place of an input at which no leaf of its tree puts a byte solves the gap formula of an alternative of a rule that the
/// tree's own rule leads to.
pub fn missed_places_solve()
    ensures { MissedPlacesSolve }
{
    asks_what_fits();
    calls_are_edges();
    lies_within();
    all_missed_solve();
    holds_its_bytes();
    covered_is_put();
}

/// Where no gap formula has a solution, of an alternative of a rule that the first one leads to, the leaves of each tree of an
/// input put that input back, or memory is wanting.
pub fn gapless_comes_back()
    ensures { GaplessComesBack }
{
    missed_places_solve();
    lies_within();
    holds_its_bytes();
    all_put_comes_back();
    answers_are_one();
}

/// Where the gap of each alternative of a reached rule is refuted, as `cover` of `ipg_cover` answers, the leaves of each tree of an
/// input put that input back, or memory is wanting.
pub fn covered_comes_back()
    ensures { CoveredComesBack }
{
    gapless_comes_back();
    checks_refute();
}
