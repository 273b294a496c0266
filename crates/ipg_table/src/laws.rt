//! What holds of the tables, the contract of a function that does nothing.

ghost use Rattle.ipg_table.specs.Laws.{OneGrammar};

/// Tables that stand for a good grammar stand for no other.
pub fn one_grammar()
    ensures { OneGrammar }
{}
