//! Laws, each the contract of a function that calls only the laws it stands on.

ghost use Rattle.ipg_cover_refute_laws.specs.Refuted.{GapsAreRefuted};

use ipg_facts_laws::laws::{gaps_are_bounded, gaps_are_light, gaps_are_ordered};
use ipg_solve::laws::ends_combine;

/// Where the gap formula of an alternative has no solution, some refutation of it checks.
pub fn gaps_are_refuted()
    ensures { GapsAreRefuted }
{
    gaps_are_bounded();
    gaps_are_light();
    gaps_are_ordered();
    ends_combine();
}
