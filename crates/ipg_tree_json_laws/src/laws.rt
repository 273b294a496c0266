//! What the JSON text of a tree tells, the contract of a function that does nothing.

ghost use Rattle.ipg_tree_json_laws.specs.Laws.{OneText};

/// Two trees of one JSON text have the same printed lines.
pub fn one_text()
    ensures { OneText }
{}
