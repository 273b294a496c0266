//! Laws of the meaning, each the contract of a function that does nothing.

ghost use Rattle.ipg_core.specs.Laws.{HeightsAgree, ForwardIsTotal, OneOrder, LiesWithin, HoldsItsBytes, TurnsSuffice, TouchingTouches, AsksWhatFits};

/// A larger height gives the same answer as any answer that isn't Deep.
pub fn heights_agree()
    ensures { HeightsAgree }
{}

/// A grammar whose calls all go to later rules is total.
pub fn forward_is_total()
    ensures { ForwardIsTotal }
{}

/// The order of an alternative's terms is one.
pub fn one_order()
    ensures { OneOrder }
{}

/// A tree lies within its part: each interval is valid, and what is touched lies in the interval that touches it.
pub fn lies_within()
    ensures { LiesWithin }
{}

/// A tree holds bytes of its part: its terminals, its numbers and its raw bytes are what stands there.
pub fn holds_its_bytes()
    ensures { HoldsItsBytes }
{}

/// A repetition never uses up the turns that the definition gives it.
pub fn turns_suffice()
    ensures { TurnsSuffice }
{}

/// A tree of a rule that must touch a byte does.
pub fn touching_touches()
    ensures { TouchingTouches }
{}

/// What a rule asks, asked what fits, fits again: so a run from the first rule asks only for what `Total` speaks of.
pub fn asks_what_fits()
    ensures { AsksWhatFits }
{}
