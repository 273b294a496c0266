//! What a certificate is worth, and which cycles it needn't speak of: laws, each the contract of a function that calls only the laws it stands on.

ghost use Rattle.ipg_proof.specs.Cycles.{LiveCyclesAreCycles, LoopsAreLive};
ghost use Rattle.ipg_proof.specs.Once.{FaultIsOne, ProvesIsNoFault, TextIsOfOne};
ghost use Rattle.ipg_proof.specs.Speaks.{ProvesIsSpeakable};
ghost use Rattle.ipg_proof.specs.Wider.{AcceptedStays};
ghost use Rattle.ipg_proof.specs.Worth.{AcceptsIsTotal, ProvesIsAccepted, ProvesIsTotal};

use ipg_cert::laws::checks_refute;
use ipg_facts_laws::ending::ends_where_none_solve;
use ipg_facts_laws::laws::{
    conditions_are_parts, conditions_offer, edges_are_few, joint_solves_parts, joints_offer,
    joints_solve_before,
};
use ipg_graph::runs_are_whole;
use ipg_touch::laws::one_limit;

/// A grammar that a certificate proves is accepted: none of its cycles can be walked on one length of the part.
pub fn proves_is_accepted()
    ensures { ProvesIsAccepted }
{
    checks_refute();
    loops_are_live();
    runs_are_whole();
}

/// Parsing by a good grammar that a certificate proves ends.
pub fn proves_is_total()
    ensures { ProvesIsTotal }
{
    accepts_is_total();
    proves_is_accepted();
}

/// So does parsing by a good grammar that is accepted.
pub fn accepts_is_total()
    ensures { AcceptsIsTotal }
{
    ends_where_none_solve();
}

/// A grammar is accepted where it was by the earlier conditions, which knew nothing of items, of the bounds of arrays and of
/// holders.
pub fn accepted_stays()
    ensures { AcceptedStays }
{
    joints_solve_before();
}

/// A certificate that proves a grammar isn't at fault, but for want of memory.
pub fn proves_is_no_fault()
    ensures { ProvesIsNoFault }
{
    one_limit();
}

/// Another is at fault for one reason.
pub fn fault_is_one()
    ensures { FaultIsOne }
{
    one_limit();
}

/// A text is of one certificate at most.
pub fn text_is_of_one()
    ensures { TextIsOfOne }
{}

/// A certificate in memory that proves a good grammar is one that texts can say.
pub fn proves_is_speakable()
    ensures { ProvesIsSpeakable }
{
    edges_are_few();
    conditions_offer();
    joints_offer();
}

/// The cycles of the edges that aren't dead are cycles of all edges.
pub fn live_cycles_are_cycles()
    ensures { LiveCyclesAreCycles }
{}

/// Where each dead edge has a refutation that checks, those are all cycles that can be walked on one length of the part.
pub fn loops_are_live()
    ensures { LoopsAreLive }
{
    checks_refute();
    conditions_are_parts();
    joint_solves_parts();
}
