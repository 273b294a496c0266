//! Laws of leaves that are put back, each the contract of a function that does nothing.

ghost use Rattle.ipg_cover_leaves.specs.Covers.{AllPutComesBack, CoveredIsPut, PutIsCovered};
ghost use Rattle.ipg_cover_leaves.specs.Laws.{AnswersAreOne, InputComesBack, LeavesAgree};

/// The leaves of a tree that holds bytes of an input, and lies within it, are refused neither for a number nor for a place
/// outside nor for a clash.
pub fn leaves_agree()
    ensures { LeavesAgree }
{}

/// Where they are put back, that input comes back.
pub fn input_comes_back()
    ensures { InputComesBack }
{}

/// At each place that the leaves of such a tree cover, they put a byte.
pub fn covered_is_put()
    ensures { CoveredIsPut }
{}

/// And at no other.
pub fn put_is_covered()
    ensures { PutIsCovered }
{}

/// Where they put a byte at each place of the input, they put that input back.
pub fn all_put_comes_back()
    ensures { AllPutComesBack }
{}

/// Leaves and a length have one answer, but for want of memory.
pub fn answers_are_one()
    ensures { AnswersAreOne }
{}
