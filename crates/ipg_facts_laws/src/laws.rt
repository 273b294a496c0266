//! Laws of the conditions, each the contract of a function that does nothing.

ghost use Rattle.ipg_facts_variables.specs.Variable.{SameVariablesAreEqual};
ghost use Rattle.ipg_facts_laws.specs.Before.{JointsSolveBefore, KeepsSolveBefore, SolutionsHold};
ghost use Rattle.ipg_facts_laws.specs.Bounded.{JointIsPart};
ghost use Rattle.ipg_facts_laws.specs.Finished.{FinishedFit};
ghost use Rattle.ipg_facts_laws.specs.Gapped.{GapsAreBounded};
ghost use Rattle.ipg_facts_laws.specs.Light.{GapsAreLight, GapsAreOrdered};
ghost use Rattle.ipg_facts_laws.specs.Missed.{AllMissedSolve};
ghost use Rattle.ipg_facts_laws.specs.Offers.{ConditionsOffer, JointsOffer};
ghost use Rattle.ipg_facts_laws.specs.Laws.{ConditionsAreParts, EdgesAreFew, EdgesAreInside, EdgesCall, FactsSolve, JointSolvesParts, MembersAreKnown};
ghost use Rattle.ipg_facts_laws.specs.Laws.{OwnMembersAreKnown, PartsSolveJoint, ReachedCyclesSolve, ReachedEdgesSolve, TermsAreKnown};
ghost use Rattle.ipg_facts_laws.specs.Laws.{ValuesAreKnown, ValuesStay};

use ipg_core::laws::{lies_within, touching_touches};

/// Facts that hold where variables have values make their formula over numbers hold, in its box.
pub fn facts_solve()
    ensures { FactsSolve }
{}

/// And the other way round: a solution of their formula gives values of variables that make the facts hold.
pub fn solutions_hold()
    ensures { SolutionsHold }
{}

/// A solution of the conditions of an edge gives one of its conditions before they knew of items, of the bounds of arrays and
/// of holders, with the same length of the part.
pub fn keeps_solve_before()
    ensures { KeepsSolveBefore }
{}

/// So does a solution of the joint of several edges' conditions. So a cycle that could not be walked before cannot now.
pub fn joints_solve_before()
    ensures { JointsSolveBefore }
{}

/// Solutions of the parts with one value of variable 0 give one of their joint.
pub fn parts_solve_joint()
    ensures { PartsSolveJoint }
{}

/// A solution of the joint gives one of each part, with its value of variable 0, where the parts have one pair of bounds
/// for that.
pub fn joint_solves_parts()
    ensures { JointSolvesParts }
{}

/// The conditions of edges are such parts: their variable 0 is a length from 0 to 2^30.
pub fn conditions_are_parts()
    ensures { ConditionsAreParts }
{}

/// The joint of such parts is such a part: it has bounds for each of its variables, and those of variable 0 are theirs.
pub fn joint_is_part()
    ensures { JointIsPart }
{}

/// Where variables have the values of what they stand for, what an expression is to the conditions holds of its value:
/// its form has that value, the facts that its variables carry hold, and so do those that it is true or false.
pub fn values_are_known()
    ensures { ValuesAreKnown }
{}

/// Variables that are the same are equal, so a variable of an expression's value is of that expression alone.
pub fn same_variables_are_equal()
    ensures { SameVariablesAreEqual }
{}

/// What a term that has run puts holds: intervals are valid, results touch of them what results of their symbols do,
/// attributes have their values, tests are true, and a switch took one branch.
pub fn members_are_known()
    ensures { MembersAreKnown }
{}

/// What the edge's own term puts holds where its call is made on the whole part.
pub fn own_members_are_known()
    ensures { OwnMembersAreKnown }
{}

/// What terms put that have run, one after another, holds: the bounds of arrays are known behind them.
pub fn terms_are_known()
    ensures { TermsAreKnown }
{}

/// A value stays where its environment goes on, if behind the items that are mentioned nothing is added.
pub fn values_stay()
    ensures { ValuesStay }
{}

/// Where an edge is reached, its term makes a call on the whole part.
pub fn edges_call()
    ensures { EdgesCall }
{}

/// The calls of a good grammar are from its rules to its rules.
pub fn edges_are_inside()
    ensures { EdgesAreInside }
{}

/// A good grammar has fewer than 2^32 calls.
pub fn edges_are_few()
    ensures { EdgesAreFew }
{}

/// Where an edge is reached in a run that fits a good grammar, its conditions have a solution in their box, in which the
/// length of the part is that of the caller's part.
pub fn reached_edges_solve()
    ensures { ReachedEdgesSolve }
{
    lies_within();
    touching_touches();
}

/// Where edges are reached on parts of one length, the joint of their conditions has a solution, in which that length is
/// the part's. So edges whose joint has none are never reached together.
pub fn reached_cycles_solve()
    ensures { ReachedCyclesSolve }
{
    lies_within();
    touching_touches();
}

/// Where all terms of an alternative have run, on what it may be asked, there are values in range that fit the state that they
/// led to, at which what its holder puts holds. A place on a side of its own may have any value among them.
pub fn finished_fit()
    ensures { FinishedFit }
{
    lies_within();
    touching_touches();
}

/// Where each of its results misses a place of the part, the alternative's gap formula has a solution with that length and place.
pub fn all_missed_solve()
    ensures { AllMissedSolve }
{
    lies_within();
    touching_touches();
}

/// Each Any of an edge's conditions has a member.
pub fn conditions_offer()
    ensures { ConditionsOffer }
{}

/// Each Any of a joint has one, where that is so of its parts.
pub fn joints_offer()
    ensures { JointsOffer }
{}

/// The formula of a gap has bounds for each of its variables, of which the second is the place.
pub fn gaps_are_bounded()
    ensures { GapsAreBounded }
{}

/// Each form in the formula of a gap has 64 terms at most, with factors of 2^40 in size at most, and none is 0.
pub fn gaps_are_light()
    ensures { GapsAreLight }
{}

/// No bound of a gap is empty: the least value of a variable is not above its greatest.
pub fn gaps_are_ordered()
    ensures { GapsAreOrdered }
{}
