//! Laws of trees that stand in a store, each the contract of a function that does nothing.

ghost use Rattle.ipg_mach_nodes.specs.Laws.{OneTree, OneKid, OneList, TreesStay, KidsStay};

/// A node stands for one tree.
pub fn one_tree()
    ensures { OneTree }
{}

/// A row stands for one child.
pub fn one_kid()
    ensures { OneKid }
{}

/// A list of rows stands for one list of children.
pub fn one_list()
    ensures { OneList }
{}

/// A tree that stands in a store stands in each that grew out of it.
pub fn trees_stay()
    ensures { TreesStay }
{}

/// A child that stands in a store stands in each that grew out of it.
pub fn kids_stay()
    ensures { KidsStay }
{}
