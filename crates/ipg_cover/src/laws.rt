//! Laws of the answers, each the contract of a function that does nothing.

ghost use Rattle.ipg_cover.specs.Laws.{CoveredHasNoGap, OneGap};

use ipg_cert::laws::checks_refute;
use ipg_touch::laws::one_limit;

/// A grammar that leaves no byte out has no gap.
pub fn covered_has_no_gap()
    ensures { CoveredHasNoGap }
{
    checks_refute();
    one_limit();
}

/// The gap that is told is one.
pub fn one_gap()
    ensures { OneGap }
{
    one_limit();
}
