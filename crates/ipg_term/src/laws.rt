//! Laws of the checker's answers, each the contract of a function that does nothing.

ghost use Rattle.ipg_term.specs.Laws.{LoopsArentAccepted, OneLoops};

use ipg_touch::laws::one_limit;

/// No grammar is accepted that has a cycle of calls whose conditions can hold together.
pub fn loops_arent_accepted()
    ensures { LoopsArentAccepted }
{
    one_limit();
}

/// The first such cycle is one, and so is the length that is told with it.
pub fn one_loops()
    ensures { OneLoops }
{
    one_limit();
}
