//! Which children have ends that are numbers of an expression, each law the contract of a function that does nothing.

ghost use Rattle.ipg_mach_results.specs.Ends.{WithinIsShort, WithinAreShort};

/// A child within a part of less than 2^63 bytes is short.
pub fn within_is_short()
    ensures { WithinIsShort }
{}

/// Children within a part of less than 2^63 bytes are short.
pub fn within_are_short()
    ensures { WithinAreShort }
{}
