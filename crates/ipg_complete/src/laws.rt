//! The law of completion, the contract of a function that does nothing.

ghost use Rattle.ipg_complete.specs.Laws.{CompletedIsFormed};

/// A grammar that is well formed as it is written stays so with its intervals written out.
pub fn completed_is_formed()
    ensures { CompletedIsFormed }
{}
