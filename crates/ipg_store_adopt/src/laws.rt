//! What holds of the test, as the contract of a function that does nothing.

ghost use Rattle.ipg_store_adopt.specs.Laws.{TellsWellFormed};

/// The test passes exactly for what is well formed.
pub fn tells_well_formed()
    ensures { TellsWellFormed }
{}
