//! Laws of the open evaluation, each the contract of a function that calls at most the laws it stands on.

ghost use Rattle.ipg_mach_moves.specs.Laws.{EndsAsMeant, EndsOnlySo, ParsesByOneCall, StaysRight, StaysWithin};

use ipg_core::laws::{heights_agree, lies_within};

/// It ends with what the grammar means, with a memo and without.
pub fn ends_as_meant()
    ensures { EndsAsMeant }
{
    heights_agree();
    lies_within();
}

/// Where it has ended, it has ended with what the grammar means.
pub fn ends_only_so()
    ensures { EndsOnlySo }
{
    ends_as_meant();
}

/// What the memo holds is right at each move.
pub fn stays_right()
    ensures { StaysRight }
{
    heights_agree();
    lies_within();
}

/// No more calls are open at once than calls may nest.
pub fn stays_within()
    ensures { StaysWithin }
{
    heights_agree();
    lies_within();
}

/// What is parsed next hangs on the answer of one call at most.
pub fn parses_by_one_call()
    ensures { ParsesByOneCall }
{}
