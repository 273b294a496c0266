//! Laws of what is shown of a tree, each the contract of a function that does nothing but call others of its kind.

ghost use Rattle.ipg_app_tree.specs.Laws.{BareIsNotPut};

use ipg_cover_leaves::laws::{covered_is_put, put_is_covered};

/// `view` shows a byte in a gap exactly where `rebuild` has none to put back.
pub fn bare_is_not_put()
    ensures { BareIsNotPut }
{
    covered_is_put();
    put_is_covered();
}
