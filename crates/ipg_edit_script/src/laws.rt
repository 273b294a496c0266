//! What holds of scripts, the contract of a function that does nothing.

ghost use Rattle.ipg_edit_script.specs.Laws.{OneScript};

/// A text is of one script at most.
pub fn one_script()
    ensures { OneScript }
{}
