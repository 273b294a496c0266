//! What holds of what is picked, each the contract of a function that does nothing.
ghost use Rattle.ipg_query.specs.Laws.{MembersAreShallow};

/// What steps come to in a tree has no more lists within one another than the tree.
pub fn members_are_shallow()
    ensures { MembersAreShallow }
{}
