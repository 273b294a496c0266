//! Laws of how parsing ends, each the contract of a function that calls at most the laws it stands on.

ghost use Rattle.ipg_facts_laws.specs.Ends.{CallsAreEdges, EndsWhereNoneSolve, EndsWithoutCycles, InputsNestWithinHeight};
ghost use Rattle.ipg_facts_laws.specs.Ends.{NestsAgree, NestsWithinHeight, RunsAgree};
ghost use Rattle.ipg_facts_laws.specs.Walks.{LongWalksHoldCycles};

use crate::laws::{edges_are_few, edges_are_inside, reached_cycles_solve, reached_edges_solve};
use ipg_core::laws::{asks_what_fits, heights_agree};

/// A walk of as many edges as a graph has vertices holds a simple cycle.
pub fn long_walks_hold_cycles()
    ensures { LongWalksHoldCycles }
{}

/// Each call that a rule makes is an edge's; where it is made on the whole part, the edge is reached.
pub fn calls_are_edges()
    ensures { CallsAreEdges }
{}

/// A good grammar is total where the edges of no simple cycle are all reached on parts of one length. Edges that are
/// never reached may be left out.
pub fn ends_without_cycles()
    ensures { EndsWithoutCycles }
{
    asks_what_fits();
    edges_are_few();
    edges_are_inside();
}

/// A good grammar is total where the conditions of no simple cycle of edges can hold together. Edges whose own conditions
/// cannot hold may be left out.
pub fn ends_where_none_solve()
    ensures { EndsWhereNoneSolve }
{
    ends_without_cycles();
    reached_edges_solve();
    reached_cycles_solve();
}

/// A larger height makes the same run, with the same calls, as any whose answer isn't Deep.
pub fn runs_agree()
    ensures { RunsAgree }
{
    heights_agree();
}

/// So calls nest as deep at a larger height.
pub fn nests_agree()
    ensures { NestsAgree }
{
    runs_agree();
}

/// The calls of a total grammar nest no deeper than the height that suffices: the part's length and one, times the rules.
pub fn nests_within_height()
    ensures { NestsWithinHeight }
{
    nests_agree();
}

/// So do the calls of the first rule on an input.
pub fn inputs_nest_within_height()
    ensures { InputsNestWithinHeight }
{
    nests_within_height();
}
