//! The bytes that are left to read.

ghost use Rattle.std.specs.Prelude.{◌≡◌};
ghost use Rattle.std.specs.Int.{w32, w64};
ghost use Rattle.ipg_reader.specs.Found.{Gives, Shows, tag_at, number_at, signed_at, bytes_at, text_at};

use crate::fault::Halt;
use ipg_num::List;
use std::alloc::Global;

/// A place among bytes, from which they are read.
#[derive(Clone, Copy)]
pub struct Reader<'a> {
    pub left: &'a [u8],
}

impl<'a> Reader<'a> {
    /// A byte that is a place in the table: what stands there.
    pub fn tag<T: Copy>(&mut self, table: &[T]) -> Result<T, Halt>
        ensures { Gives (tag_at table.now self.old.left.now) self.new.left.now result }
    {
        let [first, rest @ ..] = self.left else {
            return Err(Halt::Here);
        };
        let at = usize::from(*first);
        if at < table.len() {
            self.left = rest;
            return Ok(table[at]);
        }
        Err(Halt::Here)
    }

    /// So many bytes.
    pub fn bytes(&mut self, count: usize) -> Result<&'a [u8], Halt>
        ensures { Shows (λ b. b.now) (bytes_at count self.old.left.now) self.new.left.now result }
    {
        match self.left.split_at_checked(count) {
            Some((front, rest)) => {
                self.left = rest;
                Ok(front)
            }
            None => {
                self.left = &[];
                Err(Halt::Here)
            }
        }
    }

    /// A number of 32 bits, its least byte first.
    pub fn short(&mut self) -> Result<u32, Halt>
        ensures { Gives (number_at w32 self.old.left.now) self.new.left.now result }
    {
        let b = self.bytes(4)?;
        Ok(u32::from_le_bytes([b[0], b[1], b[2], b[3]]))
    }

    /// A number of 64 bits, its least byte first.
    pub fn long(&mut self) -> Result<u64, Halt>
        ensures { Gives (number_at w64 self.old.left.now) self.new.left.now result }
    {
        let b = self.bytes(8)?;
        Ok(u64::from_le_bytes([b[0], b[1], b[2], b[3], b[4], b[5], b[6], b[7]]))
    }

    /// A number of 64 bits with a sign, its least byte first.
    #[tactic(auto, unfolding(crate::specs::Found::signed_at))]
    pub fn signed(&mut self) -> Result<i64, Halt>
        ensures { Gives (signed_at self.old.left.now) self.new.left.now result }
    {
        let number = self.long()?;
        Ok(number.cast_signed())
    }

    /// A count of 64 bits, and as many bytes.
    #[tactic(auto, unfolding(crate::specs::Found::text_at))]
    pub fn text(&mut self, alloc: Global) -> Result<List<u8>, Halt>
        ensures { Gives (text_at self.old.left.now) self.new.left.now result }
    {
        let count = self.long()?;
        let bytes = self.bytes(count as usize)?;
        Ok(List::from_vec(Vec::from_slice(alloc, bytes)?))
    }
}
