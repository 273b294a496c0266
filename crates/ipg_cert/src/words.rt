//! Reads the words of a refutation.
ghost use Rattle.std.specs.Prelude.{◌≡◌, ℕ, ◌+◌, ◌-◌, ◌*◌, ◌^◌, ◌≤◌, ◌<◌, ◌++◌, [], ◌∷◌, length, take, drop};
ghost use Rattle.std.specs.Prelude.{min, Some, None, Ok, Err, List, IfOk, MatchResult, if◌then◌else◌};
ghost use Rattle.ipg_cert.specs.Texts.{parts_of, IsTextOf, IsTextAt, IsFault};
ghost use Rattle.ipg_cert.specs.Reader.{limit, signed, start, spaced_to, parted, with_step, with_entry, entered};
ghost use Rattle.ipg_cert.specs.Reader.{finished, step, has_ended, read_from, PosWithin, IsAnswer, IsWithin};
ghost use Rattle.ipg_cert.specs.Reading.{seen};
ghost use Rattle.ipg_cert.specs.declared.refutation.Step.{Step};
ghost use Rattle.ipg_cert.specs.declared.words.WordFault.TheVariants.{Memory};

use crate::pos::{Need, Number, Pos, Transition, transition_at};
use crate::refutation::{Refutation, Step};
use ipg_num::List;
use std::alloc::{AllocError, Global};
use std::mem;

/// Why words are no refutation.
#[derive(Clone, Copy, Debug, Drop, PartialEq, Eq)]
pub enum WordFault {
    /// No refutation goes on with the byte at this place, or the text ends here.
    At(u64),
    Memory,
}

impl From<AllocError> for WordFault {
    ghost from_gives = { λ _ fault. fault ≡ Memory };

    fn from(_: AllocError) -> WordFault {
        WordFault::Memory
    }
}

/// The steps read so far, the entries of the Combine at hand, and how many trees are open.
#[derive(Drop)]
struct Reader {
    alloc: Global,
    made: Vec<Step>,
    entries: Vec<(u64, u64)>,
    open_trees: u128,
    pos: Pos,
}

impl Step {
    /// How many trees follow.
    fn parts(&self) -> u64
        ensures { result ≡ parts_of self.now }
    {
        match self {
            Step::Combine(_) => 0,
            Step::Split { .. } => 2,
            Step::Either { parts, .. } => *parts,
        }
    }
}

fn signed_of(negative: bool, value: u64) -> i64
    requires small { value ≤ limit (Need.At 0) negative }
    ensures { result ≡ signed negative value }
{
    if negative {
        (-i128::from(value)) as i64
    } else {
        value as i64
    }
}

impl Reader {
    fn new(alloc: Global) -> Reader
        ensures { seen result ≡ start }
    {
        Reader {
            alloc,
            made: Vec::new(alloc),
            entries: Vec::new(alloc),
            open_trees: 1,
            pos: Pos::Letter,
        }
    }

    /// A space, and the next number.
    fn space_to(&mut self, need: Need, b: u8) -> bool
        ensures is { spaced_to (seen self.old) need b ≡ (if result then Some (seen self.new) else None) }
        ensures within { PosWithin self.new.pos }
        ensures open_trees { self.new.open_trees ≡ self.old.open_trees }
    {
        self.pos = Pos::First(need);
        b == b' '
    }

    /// A line feed where no tree is open, else a space and the next step.
    fn part(&mut self, b: u8) -> bool
        ensures is { parted (seen self.old) b ≡ (if result then Some (seen self.new) else None) }
        ensures within { PosWithin self.new.pos }
        ensures open_trees { self.new.open_trees ≡ self.old.open_trees }
    {
        if self.open_trees == 0 {
            self.pos = Pos::Ended;
            b == b'\n'
        } else {
            self.pos = Pos::Letter;
            b == b' '
        }
    }

    fn close(&mut self, step: Step, b: u8) -> Result<bool, AllocError>
        requires room { self.old.open_trees + 2 ^ 64 < 2 ^ 128 }
        ensures is { IfOk result
            (λ on. parted (record {
              made = (seen self.old).made ++ step ∷ [];
              entries = [];
              open_trees = self.old.open_trees - 1 + parts_of step;
              pos = self.old.pos;
            }) b ≡ (if on then Some (seen self.new) else None)) }
        ensures within { IfOk result (λ _. PosWithin self.new.pos) }
        ensures grows { IfOk result (λ _. self.new.open_trees ≤ self.old.open_trees + 2 ^ 64) }
    {
        self.open_trees = self.open_trees.saturating_sub(1) + u128::from(step.parts());
        self.made.push(step)?;
        self.entries.clear();
        Ok(self.part(b))
    }

    /// The last entry makes the Combine.
    fn enter(&mut self, left: u64, weight: u64, fact: u64, b: u8) -> Result<bool, AllocError>
        requires room { self.old.open_trees + 2 ^ 64 < 2 ^ 128 }
        ensures is { IfOk result (λ on. entered (with_entry (seen self.old) weight fact) left b ≡ (if on then Some (seen self.new) else None)) }
        ensures within { IfOk result (λ _. PosWithin self.new.pos) }
        ensures grows { IfOk result (λ _. self.new.open_trees ≤ self.old.open_trees + 2 ^ 64) }
    {
        self.entries.push((weight, fact))?;
        if left == 1 {
            let entries = mem::replace(&mut self.entries, Vec::new(self.alloc));
            self.close(Step::Combine(List::from_vec(entries)), b)
        } else {
            Ok(self.space_to(
                Need::Weight {
                    left: left.saturating_sub(1),
                },
                b,
            ))
        }
    }

    /// A number has ended before this byte.
    fn finish(&mut self, n: Number, b: u8) -> Result<bool, AllocError>
        requires room { self.old.open_trees + 2 ^ 64 < 2 ^ 128 }
        requires within { n.value ≤ limit n.need n.negative }
        ensures is { IfOk result (λ on. finished (seen self.old) n.need n.negative n.value b ≡ (if on then Some (seen self.new) else None)) }
        ensures within { IfOk result (λ _. PosWithin self.new.pos) }
        ensures grows { IfOk result (λ _. self.new.open_trees ≤ self.old.open_trees + 2 ^ 64) }
    {
        match n.need {
            Need::Count => Ok(self.space_to(Need::Weight { left: n.value }, b)),
            Need::Weight { left } => Ok(self.space_to(
                Need::Fact {
                    left,
                    weight: n.value,
                },
                b,
            )),
            Need::Fact { left, weight } => self.enter(left, weight, n.value, b),
            Need::Var => Ok(self.space_to(Need::At { var: n.value }, b)),
            Need::At { var } => {
                let at = signed_of(n.negative, n.value);
                self.close(Step::Split { var, at }, b)
            }
            Need::Choice => Ok(self.space_to(Need::Parts { fact: n.value }, b)),
            Need::Parts { fact } => self.close(
                Step::Either {
                    fact,
                    parts: n.value,
                },
                b,
            ),
        }
    }

    /// Takes a byte, if words go on with it.
    fn take(&mut self, b: u8) -> Result<bool, AllocError>
        requires room { self.old.open_trees + 2 ^ 64 < 2 ^ 128 }
        requires within { PosWithin self.old.pos }
        ensures is { IfOk result (λ on. step (seen self.old) b ≡ (if on then Some (seen self.new) else None)) }
        ensures within { IfOk result (λ _. PosWithin self.new.pos) }
        ensures grows { IfOk result (λ _. self.new.open_trees ≤ self.old.open_trees + 2 ^ 64) }
    {
        match transition_at(self.pos, b) {
            Transition::Stuck => Ok(false),
            Transition::To(pos) => {
                self.pos = pos;
                Ok(true)
            }
            Transition::End(n) => self.finish(n, b),
        }
    }
}

/// The steps at the front of these bytes, and how many bytes they and their line feed take.
fn read(alloc: Global, bytes: &[u8]) -> Result<(Vec<Step>, usize), WordFault>
    ensures is { MatchResult result (λ found. read_from start 0 bytes.now ≡ Ok (found.0.items, found.1))
        (λ fault. IsAnswer (read_from start 0 bytes.now) fault) }
    ensures within { MatchResult result (λ found. found.1 ≤ length bytes.now) (λ fault. IsWithin (length bytes.now) fault) }
{
    let mut reader = Reader::new(alloc);
    let mut next = 0;
    while next < bytes.len() {
        if !reader.take(bytes[next])? {
            return Err(WordFault::At(next as u64));
        }
        next += 1;
        if reader.pos.has_ended() {
            return Ok((reader.made, next));
        }
    }
    Err(WordFault::At(next as u64))
}

fn tail(text: &[u8], from: usize) -> &[u8]
    requires { from ≤ length text.now }
    ensures { result.now ≡ drop from text.now }
{
    &text[from..]
}

/// The refutation whose words and line feed stand in `text` from byte `at` on, and the byte behind them.
///
/// # Errors
/// `At` is the first byte that no refutation goes on with, or the text's length where it ends too early.
pub fn refutation_read(
    alloc: Global,
    text: &[u8],
    at: usize,
) -> Result<(Refutation, usize), WordFault>
    ensures is { MatchResult result (λ found. IsTextAt text.now at found.0.steps found.1) (λ fault. IsFault text.now at fault) }
    ensures back { (steps : List Step) (words rest : List ℕ) → IsTextOf steps words → drop at text.now ≡ words ++ rest
        → MatchResult result (λ found. (found.0.steps ≡ steps) × (found.1 ≡ at + length words)) (λ fault. fault ≡ Memory) }
{
    let from = at.min(text.len());
    match read(alloc, tail(text, from)) {
        Ok((steps, taken)) => {
            let steps = List::from_vec(steps);
            Ok((Refutation { steps }, from + taken))
        }
        Err(WordFault::At(taken)) => Err(WordFault::At(from as u64 + taken)),
        Err(WordFault::Memory) => Err(WordFault::Memory),
    }
}
