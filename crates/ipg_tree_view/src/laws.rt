//! What holds of a tree beside its bytes, each the contract of a function that does nothing.

ghost use Rattle.ipg_tree_view.specs.Laws.{ViewIsPlain, PickedViewIsPlain};

/// Of any input and any grammar's tree only characters of ASCII and line feeds are written.
pub fn view_is_plain()
    ensures { ViewIsPlain }
{}

/// Nor of what a path picks.
pub fn picked_view_is_plain()
    ensures { PickedViewIsPlain }
{}
