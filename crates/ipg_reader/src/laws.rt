//! Laws of readers, each the contract of a function that does nothing.

ghost use Rattle.ipg_reader.specs.Laws.{ShortAreExact, LongAreExact, SignedAreExact, TextsAreExact};

/// Numbers are read exactly, those of 32 bits, of 64 bits, and of 64 bits with a sign.
pub fn numbers_are_exact()
    ensures short { ShortAreExact }
    ensures long { LongAreExact }
    ensures signed { SignedAreExact }
{}

/// A count, and as many bytes, are read exactly.
pub fn texts_are_exact()
    ensures { TextsAreExact }
{}
