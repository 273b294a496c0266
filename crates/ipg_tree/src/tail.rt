//! Short texts, written from their ends to their starts.

ghost use Rattle.std.specs.Prelude.{◌≡◌, ◌+◌, ◌*◌, ◌≤◌, [], ◌++◌, length, decimal};
ghost use Rattle.std.specs.Fmt.{signed_decimal};
ghost use Rattle.hex.specs.Hex.{encode_lower};

use hex::encode_to_slice;
use itoa::write_digits;
use std::marker::Model;

const ROOM: usize = 160;

/// The end of a piece of a line, of at most 160 bytes. It grows at its start, so a number needs no second place.
#[derive(Drop)]
pub struct Tail {
    bytes: [u8; ROOM],
    start: usize,
}

impl Model for Tail {
    ghost use Rattle.std.specs.Prelude.{ℕ, ◌≤◌, List, drop};

    ghost Value = { List ℕ };

    ghost view = { λ t. drop t.start t.bytes };

    ghost invariant = { λ t. t.start ≤ 160 };
}

impl Tail {
    /// No bytes yet.
    pub fn new() -> Tail
        ensures { result ≡ [] }
    {
        Tail {
            bytes: [0; ROOM],
            start: ROOM,
        }
    }

    /// Takes all bytes away, so that another line can be made in the same place.
    pub fn clear(&mut self)
        ensures { self.new ≡ [] }
    {
        self.start = ROOM;
    }

    /// The text.
    pub fn as_slice(&self) -> &[u8]
        ensures { result.now ≡ self.now }
    {
        &self.bytes[self.start..]
    }

    /// Puts a text before what there is.
    #[inline]
    pub fn prepend(&mut self, text: &[u8])
        requires { length text.now + length self.old ≤ 160 }
        ensures text { self.new ≡ text.now ++ self.old }
        ensures long { length self.new ≡ length text.now + length self.old }
    {
        let start = self.start - text.len();
        self.bytes[start..self.start].copy_from_slice(text);
        self.start = start;
    }

    /// Puts a number before what there is.
    #[inline]
    pub fn prepend_number(&mut self, n: u64)
        requires { 20 + length self.old ≤ 160 }
        ensures text { self.new ≡ decimal n ++ self.old }
        ensures long { length self.new ≤ 20 + length self.old }
    {
        self.start = write_digits(n, &mut self.bytes, self.start);
    }

    /// Puts a number with its sign before what there is.
    pub fn prepend_signed(&mut self, n: i64)
        requires { 21 + length self.old ≤ 160 }
        ensures text { self.new ≡ signed_decimal n ++ self.old }
        ensures long { length self.new ≤ 21 + length self.old }
    {
        self.prepend_number(n.unsigned_abs());
        if n < 0 {
            self.prepend(b"-");
        }
    }

    /// Puts two digits for each byte before what there is.
    pub fn prepend_hex(&mut self, bytes: &[u8])
        requires { 2 * length bytes.now + length self.old ≤ 160 }
        ensures text { self.new ≡ encode_lower bytes.now ++ self.old }
        ensures long { length self.new ≡ 2 * length bytes.now + length self.old }
    {
        let start = self.start - 2 * bytes.len();
        let _fits = encode_to_slice(bytes, &mut self.bytes[start..self.start]);
        self.start = start;
    }
}
