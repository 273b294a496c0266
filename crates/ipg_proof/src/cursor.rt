//! Reads words, numbers and refutations.
ghost use Rattle.std.specs.Prelude.{◌≡◌, ◌∷◌, ◌++◌, [], ◌≤◌, ◌<◌, ◌+◌, ◌^◌, length, drop, MatchOption};
ghost use Rattle.std.specs.List.{flat_map};
ghost use Rattle.ipg_proof.specs.Texts.{number_text, refutation_line, edge_line, cycle_line, counted_text};
ghost use Rattle.ipg_proof.specs.Texts.{IsShort, IsLong, IsTree, IsEdgeEntry, AreFew, AreCounted};
ghost use Rattle.ipg_proof.specs.Texts.{IsCycleEntry, IsSpeakable, heading, between, text_of};
ghost use Rattle.ipg_proof.specs.Numbers.{IsDigit, FirstAnswer, NextAnswer, WithDigit};
ghost use Rattle.ipg_proof.specs.Reads.{Reads, AreSo, IsFrom, IsWithin, any, always};

use crate::certificate::Certificate;
use ipg_cert::{Refutation, WordFault, refutation_read};
use ipg_num::List;
use std::alloc::{AllocError, AllocFailed, Global};

/// Why a cursor goes no further.
#[derive(Clone, Copy, Debug, Drop, PartialEq, Eq)]
pub enum Stall {
    /// Nothing goes on with the byte where the cursor stands.
    Here,
    Memory,
}

/// The bytes that are left to read.
#[derive(Clone, Copy)]
pub struct Cursor<'a> {
    pub left: &'a [u8],
}

impl From<AllocError> for Stall {
    ghost use Rattle.ipg_proof.specs.declared.cursor.Stall.TheVariants.{Memory};

    ghost from_gives = { λ _ e. e ≡ Memory };

    fn from(_: AllocError) -> Stall {
        Stall::Memory
    }
}

impl<T: Drop> From<AllocFailed<T>> for Stall {
    ghost use Rattle.ipg_proof.specs.declared.cursor.Stall.TheVariants.{Memory};

    ghost from_gives = { λ _ e. e ≡ Memory };

    fn from(_: AllocFailed<T>) -> Stall {
        Stall::Memory
    }
}

impl<'a> Cursor<'a> {
    fn byte(&mut self, b: u8) -> Result<(), Stall>
        ensures { Reads any (always (b ∷ [])) self.old.left.now self.new.left.now result }
    {
        if let [first, rest @ ..] = self.left {
            if *first == b {
                self.left = rest;
                return Ok(());
            }
        }
        Err(Stall::Here)
    }

    fn word(&mut self, word: &[u8]) -> Result<(), Stall>
        ensures { Reads any (always word.now) self.old.left.now self.new.left.now result }
    {
        for b in word {
            self.byte(*b)?;
        }
        Ok(())
    }

    /// The first digit of a number that is at least `least`.
    fn first_digit(&mut self, least: u64) -> Option<u64>
        requires { least ≤ 1 }
        ensures { FirstAnswer least self.old.left.now self.new.left.now result }
    {
        let [first, rest @ ..] = self.left else {
            return None;
        };
        let Some(digit) = digit_of(*first) else {
            return None;
        };
        if digit < least {
            return None;
        }
        self.left = rest;
        Some(digit)
    }

    /// The number with the next digit behind those of `value`, if it is at most `most`.
    fn next_digit(&mut self, most: u64, value: u64) -> Option<u64>
        ensures { NextAnswer most value self.old.left.now self.new.left.now result }
    {
        let [first, rest @ ..] = self.left else {
            return None;
        };
        let Some(digit) = digit_of(*first) else {
            return None;
        };
        let Some(next) = with_digit(most, value, digit) else {
            return None;
        };
        self.left = rest;
        Some(next)
    }

    /// A number from `least` to `most`, and the byte behind it.
    fn number_within(&mut self, least: u64, most: u64, stop: u8) -> Result<u64, Stall>
        requires least { least ≤ 1 }
        requires most { 9 ≤ most }
        requires stop { stop < 48 }
        ensures { Reads (IsWithin least most) (number_text stop) self.old.left.now self.new.left.now result }
    {
        let Some(mut value) = self.first_digit(least) else {
            return Err(Stall::Here);
        };
        while let Some(next) = self.next_digit(most, value) {
            value = next;
        }
        self.byte(stop)?;
        Ok(value)
    }

    /// A number of 32 bits that is at least `least`, and the byte behind it.
    fn number_from(&mut self, least: u64, stop: u8) -> Result<u64, Stall>
        requires least { least ≤ 1 }
        requires stop { stop < 48 }
        ensures { Reads (IsFrom least) (number_text stop) self.old.left.now self.new.left.now result }
    {
        self.number_within(least, u64::from(u32::MAX), stop)
    }

    /// A number of 32 bits, and the byte behind it.
    fn short(&mut self, stop: u8) -> Result<u64, Stall>
        requires { stop < 48 }
        ensures { Reads IsShort (number_text stop) self.old.left.now self.new.left.now result }
    {
        self.number_from(0, stop)
    }

    /// A number of 64 bits, and the byte behind it.
    fn long(&mut self, stop: u8) -> Result<u64, Stall>
        requires { stop < 48 }
        ensures { Reads IsLong (number_text stop) self.old.left.now self.new.left.now result }
    {
        self.number_within(0, u64::MAX, stop)
    }

    fn edge(&mut self) -> Result<u32, Stall>
        ensures { Reads IsShort (number_text 32) self.old.left.now self.new.left.now result }
    {
        let edge = self.short(b' ')?;
        Ok(edge as u32)
    }

    /// A refutation's words and a line feed.
    fn refutation(&mut self, alloc: Global) -> Result<Refutation, Stall>
        ensures { Reads IsTree refutation_line self.old.left.now self.new.left.now result }
    {
        match refutation_read(alloc, self.left, 0) {
            Ok((refutation, to)) => {
                self.left = after(self.left, to);
                Ok(refutation)
            }
            Err(WordFault::At(place)) => {
                self.left = after(self.left, place as usize);
                Err(Stall::Here)
            }
            Err(WordFault::Memory) => Err(Stall::Memory),
        }
    }

    /// So many numbers, each with a space behind it.
    fn numbers(&mut self, alloc: Global, count: u64) -> Result<List<u32>, Stall>
        ensures { Reads (AreSo IsShort count) (flat_map (number_text 32)) self.old.left.now self.new.left.now result }
    {
        let mut numbers = Vec::new(alloc);
        for _at in 0..count {
            let number = self.edge()?;
            numbers.push(number)?;
        }
        Ok(List::from_vec(numbers))
    }

    /// A cycle: a count from 1 on, and as many edges.
    fn cycle(&mut self, alloc: Global) -> Result<List<u32>, Stall>
        ensures { Reads (AreCounted (IsFrom 1) IsShort) (counted_text 32 (number_text 32)) self.old.left.now self.new.left.now result }
    {
        let count = self.number_from(1, b' ')?;
        self.numbers(alloc, count)
    }

    fn edge_line(&mut self, alloc: Global) -> Result<(u32, Refutation), Stall>
        ensures { Reads IsEdgeEntry edge_line self.old.left.now self.new.left.now result }
    {
        let edge = self.edge()?;
        let refutation = self.refutation(alloc)?;
        Ok((edge, refutation))
    }

    fn cycle_line(&mut self, alloc: Global) -> Result<(List<u32>, Refutation), Stall>
        ensures { Reads IsCycleEntry cycle_line self.old.left.now self.new.left.now result }
    {
        let cycle = self.cycle(alloc)?;
        let refutation = self.refutation(alloc)?;
        Ok((cycle, refutation))
    }

    fn edge_lines(&mut self, alloc: Global, count: u64) -> Result<List<(u32, Refutation)>, Stall>
        ensures { Reads (AreSo IsEdgeEntry count) (flat_map edge_line) self.old.left.now self.new.left.now result }
    {
        let mut entries = Vec::new(alloc);
        for _at in 0..count {
            let entry = self.edge_line(alloc)?;
            entries.push(entry)?;
        }
        Ok(List::from_vec(entries))
    }

    fn cycle_lines(
        &mut self,
        alloc: Global,
        count: u64,
    ) -> Result<List<(List<u32>, Refutation)>, Stall>
        ensures { Reads (AreSo IsCycleEntry count) (flat_map cycle_line) self.old.left.now self.new.left.now result }
    {
        let mut entries = Vec::new(alloc);
        for _at in 0..count {
            let entry = self.cycle_line(alloc)?;
            entries.push(entry)?;
        }
        Ok(List::from_vec(entries))
    }

    fn dead(&mut self, alloc: Global) -> Result<List<(u32, Refutation)>, Stall>
        ensures { Reads (AreFew IsEdgeEntry) (λ dead. heading ++ counted_text 10 edge_line dead) self.old.left.now self.new.left.now result }
    {
        self.word(b"ipgcert 2\ndead ")?;
        let count = self.short(b'\n')?;
        self.edge_lines(alloc, count)
    }

    fn cycles(&mut self, alloc: Global) -> Result<List<(List<u32>, Refutation)>, Stall>
        ensures { Reads (AreCounted IsLong IsCycleEntry) (λ cycles. between ++ counted_text 10 cycle_line cycles) self.old.left.now self.new.left.now result }
    {
        self.word(b"cycles ")?;
        let count = self.long(b'\n')?;
        self.cycle_lines(alloc, count)
    }

    /// A certificate, whatever stands behind it.
    pub fn certificate(&mut self, alloc: Global) -> Result<Certificate, Stall>
        ensures { Reads IsSpeakable text_of self.old.left.now self.new.left.now result }
    {
        let dead = self.dead(alloc)?;
        let cycles = self.cycles(alloc)?;
        Ok(Certificate { dead, cycles })
    }
}

fn after(bytes: &[u8], n: usize) -> &[u8]
    requires { n ≤ length bytes.now }
    ensures { result.now ≡ drop n bytes.now }
{
    &bytes[n..]
}

fn digit_of(b: u8) -> Option<u64>
    ensures { MatchOption result (IsDigit b → ⊥) (λ d. (b ≡ 48 + d) × (d ≤ 9)) }
{
    if b < b'0' || b'9' < b {
        return None;
    }
    Some(u64::from(b - b'0'))
}

/// The number with one digit more, if it is at most `most`; 0 has none behind it.
fn with_digit(most: u64, value: u64, digit: u64) -> Option<u64>
    requires { digit ≤ 9 }
    ensures { WithDigit most value digit result }
{
    if value == 0 {
        return None;
    }
    let next = u128::from(value) * 10 + u128::from(digit);
    if next <= u128::from(most) {
        Some(next as u64)
    } else {
        None
    }
}
