//! Laws of what an evaluation counts, each the contract of a function that calls at most the laws it stands on.

ghost use Rattle.ipg_mach_count_laws.specs.Laws.{AllWhereNoneKept, CountsOver, CountsWithMemo, CountsWithoutMemo, DeepestOver, EndedStays};
ghost use Rattle.ipg_mach_count_laws.specs.Laws.{FewerWhereMoreKept, FreshAtAnyHeight, FreshLieInside, KeysAreKnown};
ghost use Rattle.ipg_mach_count_laws.specs.Laws.{KnownAtEnd, NoneWhereFirstKept, OneFresh, OneReach};
ghost use Rattle.ipg_mach_count_laws.specs.Standing.{CallsSit, StandsThere};

use ipg_core::laws::{asks_what_fits, heights_agree, turns_suffice};
use ipg_mach_moves::laws::parses_by_one_call;

/// Without a memo each call of a global rule runs its body, none is known, and as many calls are open at once as calls nest.
pub fn counts_without_memo()
    ensures { CountsWithoutMemo }
{
    turns_suffice();
    parses_by_one_call();
}

/// With a memo that knows nothing beforehand each key that is reached runs its body once, and every further call of it is known.
pub fn counts_with_memo()
    ensures { CountsWithMemo }
{
    counts_over();
    keys_are_known();
    all_where_none_kept();
}

/// Over answers that are known beforehand each key that has to run runs its body once, and every other call is known.
pub fn counts_over()
    ensures { CountsOver }
{
    heights_agree();
    turns_suffice();
    parses_by_one_call();
}

/// Over answers that are known beforehand as many calls are open at most as nest where what is known needn't be opened.
pub fn deepest_over()
    ensures { DeepestOver }
{
    heights_agree();
    turns_suffice();
    parses_by_one_call();
}

/// At the end, unless a value left its range, all keys that were kept are known, all that had to run but for the first, and no others.
pub fn known_at_end()
    ensures { KnownAtEnd }
{
    heights_agree();
    turns_suffice();
    parses_by_one_call();
    one_fresh();
}

/// Each list of answers is of some keys.
pub fn keys_are_known()
    ensures { KeysAreKnown }
{}

/// Where the first key is kept, none has to run.
pub fn none_where_first_kept()
    ensures { NoneWhereFirstKept }
{}

/// Where no key is kept, those have to run that are reached.
pub fn all_where_none_kept()
    ensures { AllWhereNoneKept }
{}

/// Where more keys are kept, no others have to run, and no more.
pub fn fewer_where_more_kept()
    ensures { FewerWhereMoreKept }
{}

/// The keys that have to run are one set, of one number, and make one number of calls.
pub fn one_fresh()
    ensures { OneFresh }
{}

/// The keys that have to run are the same at each height that suffices.
pub fn fresh_at_any_height()
    ensures { FreshAtAnyHeight }
{
    heights_agree();
    turns_suffice();
    parses_by_one_call();
}

/// The keys that have to run are on intervals of the input.
pub fn fresh_lie_inside()
    ensures { FreshLieInside }
{
    asks_what_fits();
}

/// The keys that are reached are one set too.
pub fn one_reach()
    ensures { OneReach }
{
    all_where_none_kept();
    one_fresh();
}

/// Bytes that stand in the input are its part there.
pub fn stands_there()
    ensures { StandsThere }
{}

/// What an open call calls is on bytes that stand in the input where its own do; and a global rule is passed no attributes.
pub fn calls_sit()
    ensures { CallsSit }
{}

/// An evaluation that has ended stays as it is, however often it is moved.
pub fn ended_stays()
    ensures { EndedStays }
{}
