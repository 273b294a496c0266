//! What holds of marks and of loose repetitions, each the contract of a function that does nothing.

ghost use Rattle.ipg_touch.specs.First.{LooseIsFirst};
ghost use Rattle.ipg_touch.specs.Laws.{OneLimit};

/// The marks of the rules that must touch are one list.
pub fn one_limit()
    ensures { OneLimit }
{}

/// The search for a loose repetition finds the first, exactly where there is one.
pub fn loose_is_first()
    ensures { LooseIsFirst }
{}
