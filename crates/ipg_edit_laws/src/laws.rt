//! What an edit of an input leaves as it was, each the contract of a function that does nothing.

ghost use Rattle.ipg_edit_laws.specs.Laws.{EditedLength, EarlierBytesStay, LaterBytesMove, EarlierTreesStay, LaterTreesMove};
ghost use Rattle.ipg_edit_laws.specs.Laws.{SameBytesSameTree, SameBytesSameKid};
ghost use Rattle.ipg_edit_laws.specs.Known.{KnownStays, KnownMoves, NothingElse, OneOrigin, KeysAfterAreKnown, StaysRightToKnow};

/// The length of an edited input.
pub fn edited_length()
    ensures { EditedLength }
{}

/// A part that ends at or before the edit has the bytes that it had.
pub fn earlier_bytes_stay()
    ensures { EarlierBytesStay }
{}

/// A part that begins at or behind the edit has the bytes that it had, at its new place.
pub fn later_bytes_move()
    ensures { LaterBytesMove }
{}

/// A tree stands over each input that has the same bytes on its part, wherever that part begins.
pub fn same_bytes_same_tree()
    ensures { SameBytesSameTree }
{}

/// So does a child of such a part.
pub fn same_bytes_same_kid()
    ensures { SameBytesSameKid }
{}

/// A tree of a part that ends at or before the edit stands where it stood.
pub fn earlier_trees_stay()
    ensures { EarlierTreesStay }
{}

/// A tree of a part that begins at or behind the edit stands at the part's new place.
pub fn later_trees_move()
    ensures { LaterTreesMove }
{}

/// What is known of a part that ends at or before the edit stays known.
pub fn known_stays()
    ensures { KnownStays }
{}

/// What is known of a part that begins at or behind the edit is known of the part's new place.
pub fn known_moves()
    ensures { KnownMoves }
{}

/// Nothing else is known after an edit.
pub fn nothing_else()
    ensures { NothingElse }
{}

/// A key that moved was one key.
pub fn one_origin()
    ensures { OneOrigin }
{}

/// The keys that are kept through an edit are those of which an answer is known then.
pub fn keys_after_are_known()
    ensures { KeysAfterAreKnown }
{}

/// What was right to know stays right.
pub fn stays_right_to_know()
    ensures { StaysRightToKnow }
{
    earlier_bytes_stay();
    later_bytes_move();
}
