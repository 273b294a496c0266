//! Laws of failures, each the contract of a function that calls the laws it stands on.

ghost use Rattle.ipg_mach_failure_laws.specs.Laws.{RangeLeftAlikeByMemo, ToldAlikeByMemo};

use ipg_mach_count_laws::laws::{calls_sit, ended_stays, stands_there};
use ipg_mach_failures::laws::none_behind_end;
use ipg_mach_moves::laws::parses_by_one_call;

/// With a memo that knows nothing beforehand the same failures are told as without one.
pub fn told_alike_by_memo()
    ensures { ToldAlikeByMemo }
{
    calls_sit();
    stands_there();
    none_behind_end();
}

/// With a memo that knows nothing beforehand a value leaves its range where it does without one: at the same term at hand of the
/// same call, above the same calls.
pub fn range_left_alike_by_memo()
    ensures { RangeLeftAlikeByMemo }
{
    calls_sit();
    stands_there();
    ended_stays();
    parses_by_one_call();
}
