//! What holds of paths, the contract of a function that does nothing.

ghost use Rattle.ipg_query_path.specs.Laws.{OnePath};

/// A text is of one path at most.
pub fn one_path()
    ensures { OnePath }
{}
