//! The page that leaves are put on.
ghost use Rattle.std.specs.Prelude.{◌≡◌, ℕ, ◌+◌, ◌<◌, ◌≤◌, ◌^◌, ◌⊎◌, List, [], ◌∷◌, ◌++◌, Some, length, IfOk, OnOk, MatchResult};
ghost use Rattle.std.specs.List.{All, Contains};
ghost use Rattle.ipg_cover_leaves.specs.declared.leaf.Leaf.{Leaf as Placed};
ghost use Rattle.ipg_cover_leaves.specs.Bytes.{from_on, limits, written, leaf_bytes, place_of, puts_of, puts};
ghost use Rattle.ipg_cover_leaves.specs.Back.{HasBytes, IsInside};
ghost use Rattle.ipg_cover_leaves.specs.Page.{Holds, AreBytes, IsGapFault};

use crate::fault::PutFault;
use crate::leaf::Leaf;
use crate::number::{Halves, halves_of};
use ipg_core::grammar::Primitive;
use std::alloc::{AllocError, Global};

/// A cell for each place, and the least place where two bytes differ so far.
#[derive(Drop)]
pub struct Page {
    cells: Vec<Option<u8>>,
    clash: Option<u32>,
}

/// The lesser of a place that may be there and another.
fn lesser(clash: Option<u32>, at: u32) -> u32
    ensures at { result ≤ at }
    ensures clash { (least : ℕ) → clash ≡ Some least → result ≤ least }
    ensures one { (clash ≡ Some result) ⊎ (result ≡ at) }
{
    match clash {
        Some(least) if least < at => least,
        _ => at,
    }
}

/// Puts a byte at the end.
fn push(bytes: &mut Vec<u8>, byte: u8) -> Result<(), AllocError>
    ensures { OnOk result (bytes.new.items ≡ bytes.old.items ++ byte ∷ []) }
{
    bytes.push(byte)?;
    Ok(())
}

impl Page {
    /// A page of so many empty cells.
    pub fn new(alloc: Global, len: u32) -> Result<Page, AllocError>
        ensures { IfOk result (λ page. (length page.cells.items ≡ len) × Holds page.cells.items page.clash []) }
    {
        let cells = vec![in alloc; None; len as usize]?;
        Ok(Page { cells, clash: None })
    }

    /// Puts a byte at a place.
    fn put(&mut self, at: u32, byte: u8)
        requires { at < length self.old.cells.items }
        ensures long { length self.new.cells.items ≡ length self.old.cells.items }
        ensures put { (all : List (ℕ × ℕ)) → Holds self.old.cells.items self.old.clash all
            → Holds self.new.cells.items self.new.clash (all ++ (at, byte) ∷ []) }
    {
        match self.cells[at as usize] {
            None => self.cells[at as usize] = Some(byte),
            Some(other) => {
                if other != byte {
                    self.clash = Some(lesser(self.clash, at));
                }
            }
        }
    }

    /// Puts bytes from a place on.
    fn put_all(&mut self, from: u32, bytes: &[u8])
        requires fits { 1 ≤ length bytes.now → from + length bytes.now ≤ length self.old.cells.items }
        requires small { length self.old.cells.items < 2 ^ 32 }
        ensures long { length self.new.cells.items ≡ length self.old.cells.items }
        ensures put { (all : List (ℕ × ℕ)) → Holds self.old.cells.items self.old.clash all
            → Holds self.new.cells.items self.new.clash (all ++ from_on from bytes.now) }
    {
        let mut at = from;
        for byte in bytes {
            self.put(at, *byte);
            at += 1;
        }
    }

    /// Puts a number from a place on.
    fn put_number(&mut self, from: u32, prim: Primitive, number: Halves)
        requires below { number.low < (limits prim).1 }
        requires fits { 1 ≤ length (written prim number.high number.low)
            → from + length (written prim number.high number.low) ≤ length self.old.cells.items }
        requires small { length self.old.cells.items < 2 ^ 32 }
        ensures long { length self.new.cells.items ≡ length self.old.cells.items }
        ensures put { (all : List (ℕ × ℕ)) → Holds self.old.cells.items self.old.clash all
            → Holds self.new.cells.items self.new.clash (all ++ from_on from (written prim number.high number.low)) }
    {
        let Halves { high, low } = number;
        match prim {
            Primitive::U8 => self.put_all(from, &(low as u8).to_le_bytes()),
            Primitive::U16LE => self.put_all(from, &(low as u16).to_le_bytes()),
            Primitive::U16BE => self.put_all(from, &(low as u16).to_be_bytes()),
            Primitive::U32LE => self.put_all(from, &low.to_le_bytes()),
            Primitive::U32BE => self.put_all(from, &low.to_be_bytes()),
            Primitive::U64LE => self.put_both(from, &low.to_le_bytes(), &high.to_le_bytes()),
            Primitive::U64BE => self.put_both(from, &high.to_be_bytes(), &low.to_be_bytes()),
            Primitive::Bytes => {}
        }
    }

    /// Puts bytes from a place on, and others behind them.
    fn put_both(&mut self, from: u32, first: &[u8], second: &[u8])
        requires fits { from + length (first.now ++ second.now) ≤ length self.old.cells.items }
        requires small { length self.old.cells.items < 2 ^ 32 }
        ensures long { length self.new.cells.items ≡ length self.old.cells.items }
        ensures put { (all : List (ℕ × ℕ)) → Holds self.old.cells.items self.old.clash all
            → Holds self.new.cells.items self.new.clash (all ++ from_on from (first.now ++ second.now)) }
    {
        self.put_all(from, first);
        self.put_all(from + first.len() as u32, second);
    }

    /// Puts the bytes of a leaf.
    fn put_leaf(&mut self, leaf: &Leaf)
        requires bytes { HasBytes leaf.now }
        requires inside { IsInside (length self.old.cells.items) leaf.now }
        requires small { length self.old.cells.items < 2 ^ 32 }
        ensures long { length self.new.cells.items ≡ length self.old.cells.items }
        ensures put { (all : List (ℕ × ℕ)) → Holds self.old.cells.items self.old.clash all
            → Holds self.new.cells.items self.new.clash (all ++ puts_of leaf.now) }
    {
        match leaf {
            Leaf::Text { from, bytes } => self.put_all(*from, bytes.as_slice()),
            Leaf::Raw { from, bytes } => self.put_all(*from, bytes.as_slice()),
            Leaf::Number {
                prim,
                from,
                high,
                low,
            } => {
                if let Some(number) = halves_of(*prim, high, low) {
                    self.put_number(*from, *prim, number);
                }
            }
        }
    }

    /// Puts the bytes of leaves.
    pub fn put_leaves(&mut self, leaves: &[Leaf])
        requires bytes { All HasBytes leaves.now }
        requires inside { All (IsInside (length self.old.cells.items)) leaves.now }
        requires small { length self.old.cells.items < 2 ^ 32 }
        ensures long { length self.new.cells.items ≡ length self.old.cells.items }
        ensures put { Holds self.old.cells.items self.old.clash [] → Holds self.new.cells.items self.new.clash (puts leaves.now) }
    {
        for leaf in leaves {
            self.put_leaf(leaf);
        }
    }

    /// The least place where two bytes differ.
    pub fn clash(&self) -> Option<u32>
        ensures { result ≡ self.now.clash }
    {
        self.clash
    }

    /// The bytes that were put.
    ///
    /// # Errors
    /// `Gap` names the first place without one.
    pub fn bytes(&self, alloc: Global) -> Result<Vec<u8>, PutFault>
        requires { length self.now.cells.items < 2 ^ 32 }
        ensures { (all : List (ℕ × ℕ)) → Holds self.now.cells.items self.now.clash all
            → MatchResult result (λ bytes. AreBytes all (length self.now.cells.items) bytes.items) (IsGapFault all (length self.now.cells.items)) }
    {
        let mut bytes = Vec::with_capacity(alloc, self.cells.len())?;
        for (at, cell) in self.cells.iter().enumerate() {
            match cell {
                Some(byte) => push(&mut bytes, *byte)?,
                None => return Err(PutFault::Gap { at: at as u32 }),
            }
        }
        Ok(bytes)
    }
}
