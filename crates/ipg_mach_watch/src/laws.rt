//! Laws of findings, each the contract of a function that calls at most the laws it stands on.

ghost use Rattle.ipg_mach_watch.specs.Laws.{EndIsMeant, OneFindings, ToldAreFurthest, ToldWhereNone};

use ipg_mach_failures::laws::{furthest_are_furthest, none_behind_end, some_where_none};
use ipg_mach_moves::laws::ends_only_so;

/// What is found of an input by a grammar is one.
pub fn one_findings()
    ensures { OneFindings }
{
    none_behind_end();
}

/// It is found to have ended as the grammar means.
pub fn end_is_meant()
    ensures { EndIsMeant }
{
    ends_only_so();
}

/// Where a good grammar has no tree, a failure is told.
pub fn told_where_none()
    ensures { ToldWhereNone }
{
    some_where_none();
    furthest_are_furthest();
}

/// What is told are the furthest of the failures that were met.
pub fn told_are_furthest()
    ensures { ToldAreFurthest }
{
    furthest_are_furthest();
}
