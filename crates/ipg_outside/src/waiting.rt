//! Bytes that wait in place.

ghost use Rattle.std.specs.Prelude.{◌≡◌, [], ◌++◌, OnOk, OnErr};

use std::marker::Model;

const ROOM: usize = 1 << 14;

/// There is no room for a piece.
#[derive(Clone, Copy)]
pub(crate) struct NoRoom;

/// At most 16 KiB, piece behind piece. Taking them away writes nothing.
#[derive(Drop)]
pub struct Waiting {
    bytes: [u8; ROOM],
    count: usize,
}

impl Model for Waiting {
    ghost use Rattle.std.specs.Prelude.{ℕ, ◌≤◌, List, take};

    ghost Value = { List ℕ };

    ghost view = { λ w. take w.count w.bytes };

    ghost invariant = { λ w. w.count ≤ 16384 };
}

impl Waiting {
    /// No bytes yet.
    pub(crate) fn new() -> Waiting
        ensures { result ≡ [] }
    {
        Waiting {
            bytes: [0; ROOM],
            count: 0,
        }
    }

    /// The bytes.
    pub(crate) fn as_slice(&self) -> &[u8]
        ensures { result.now ≡ self.now }
    {
        &self.bytes[..self.count]
    }

    /// Takes all bytes away.
    pub(crate) fn clear(&mut self)
        ensures { self.new ≡ [] }
    {
        self.count = 0;
    }

    /// Puts a piece behind what there is, where there is room for all of it.
    #[inline]
    pub(crate) fn add(&mut self, piece: &[u8]) -> Result<(), NoRoom>
        ensures added { OnOk result (self.new ≡ self.old ++ piece.now) }
        ensures full { OnErr result (self.new ≡ self.old) }
    {
        if ROOM - self.count < piece.len() {
            return Err(NoRoom);
        }
        let end = self.count + piece.len();
        self.bytes[self.count..end].copy_from_slice(piece);
        self.count = end;
        Ok(())
    }
}
