//! A text of at most 54 characters, cut where it is longer.

ghost use Rattle.std.specs.Prelude.{◌≡◌, ◌+◌, ◌≤◌, ◌++◌, ◌∷◌, [], ℕ, List, decimal, length};
ghost use Rattle.std.specs.Fmt.{signed_decimal};
ghost use Rattle.ipg_tree_view.specs.View as spec;
ghost use Rattle.ipg_tree_view.specs.Cutting.{begun, Lacks};

use crate::words::first;
use ipg_tree::Tail;
use std::marker::Model;

/// As many characters as fit beside 78 in a line of 132.
const WIDE: usize = 54;

/// The start of a text that is put together, and whether it has more than that.
#[derive(Drop)]
pub(crate) struct Cut {
    bytes: [u8; WIDE],
    len: usize,
    is_longer: bool,
}

impl Model for Cut {
    ghost use Rattle.std.specs.Prelude.{◌≤◌, take};
    ghost use Rattle.ipg_tree_view.specs.Cutting.{Begun};

    ghost Value = { Begun };

    ghost view = { λ c. record { kept = take c.len c.bytes; is_longer = c.is_longer } };

    ghost invariant = { λ c. c.len ≤ 54 };
}

/// The byte, where it is a character of ASCII; else a dot.
pub(crate) fn printable(byte: u8) -> u8
    ensures { result ≡ spec.printable byte }
{
    if 32 <= byte && byte <= 126 {
        byte
    } else {
        b'.'
    }
}

impl Cut {
    /// No text yet.
    pub(crate) fn new() -> Cut
        ensures { result ≡ begun [] }
    {
        Cut {
            bytes: [0; WIDE],
            len: 0,
            is_longer: false,
        }
    }

    fn push_byte(&mut self, byte: u8)
        ensures { (text : List ℕ) → self.old ≡ begun text → self.new ≡ begun (text ++ byte ∷ []) }
    {
        if self.len < WIDE {
            self.bytes[self.len] = printable(byte);
            self.len += 1;
        } else {
            self.is_longer = true;
        }
    }

    /// Puts a text behind what there is.
    pub(crate) fn push(&mut self, text: &[u8])
        ensures { (all end : List ℕ) → Lacks self.old all (text.now ++ end) → Lacks self.new all end }
    {
        for byte in text {
            self.push_byte(*byte);
        }
    }

    /// Puts a number behind what there is.
    pub(crate) fn push_number(&mut self, n: u64)
        ensures { (all end : List ℕ) → Lacks self.old all (decimal n ++ end) → Lacks self.new all end }
    {
        let mut digits = Tail::new();
        digits.prepend_number(n);
        self.push(digits.as_slice());
    }

    /// Puts a number with its sign behind what there is.
    pub(crate) fn push_signed(&mut self, n: i64)
        ensures { (all end : List ℕ) → Lacks self.old all (signed_decimal n ++ end) → Lacks self.new all end }
    {
        let mut digits = Tail::new();
        digits.prepend_signed(n);
        self.push(digits.as_slice());
    }

    /// Puts the text before what stands in a line, which has room for it.
    pub(crate) fn prepend_to(&self, line: &mut Tail)
        requires { length line.old ≤ 100 }
        ensures text { (text : List ℕ) → self.now ≡ begun text → line.new ≡ spec.cut text ++ line.old }
        ensures long { length line.new ≤ 54 + length line.old }
    {
        if self.is_longer {
            line.prepend(b"..");
            line.prepend(first(self.as_slice(), 52));
        } else {
            line.prepend(self.as_slice());
        }
    }

    fn as_slice(&self) -> &[u8]
        ensures { result.now ≡ self.now.kept }
    {
        &self.bytes[..self.len]
    }
}
