//! Laws of failures, each the contract of a function that does nothing.

ghost use Rattle.ipg_mach_failures.specs.Laws.{FailsWhereNone, FurthestAreFurthest, NoneBehindEnd, SomeWhereNone};

/// A term fails by itself exactly where the meaning gives it no result though each call that it makes has one.
pub fn fails_where_none()
    ensures { FailsWhereNone }
{}

/// Where no call is known beforehand to have no tree, an evaluation that ends with no tree has met a failure.
pub fn some_where_none()
    ensures { SomeWhereNone }
{}

/// An evaluation that has ended meets no failure.
pub fn none_behind_end()
    ensures { NoneBehindEnd }
{}

/// What is told of failures is met at the greatest place, no two alike, eight at most; all that is met there, or one alike, where
/// there are no more.
pub fn furthest_are_furthest()
    ensures { FurthestAreFurthest }
{}
