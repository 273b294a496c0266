//! What the answer of a call comes to, each law the contract of a function that does nothing.

ghost use Rattle.ipg_mach_term.specs.Advance.{AnsweredIsTaken, SubEndsBy};

use ipg_mach_moves::laws::parses_by_one_call;

/// A tree that a call on an interval gives, as a child, ends by where the interval does.
pub fn sub_ends_by()
    ensures { SubEndsBy }
{}

/// A move that makes a call is, once that is answered, what the term makes of the tree as a child, or of that there is none.
pub fn answered_is_taken()
    ensures { AnsweredIsTaken }
{
    parses_by_one_call();
}
