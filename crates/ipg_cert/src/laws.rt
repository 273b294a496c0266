//! Laws of refutations, each the contract of a function that does nothing.

ghost use Rattle.ipg_cert.specs.Laws.{ChecksRefute, SumTakes, CancelledIsAbsurd};

/// A refutation that checks leaves no assignment in the box that makes the formula hold.
pub fn checks_refute()
    ensures { ChecksRefute }
{}

/// What a sum of forms takes a variable.
pub fn sum_takes()
    ensures { SumTakes }
{}

/// A sum that takes no variable, and whose constant is above 0, is absurd.
pub fn cancelled_is_absurd()
    ensures { CancelledIsAbsurd }
{}
