//! Reads a script.
ghost use Rattle.std.specs.Prelude.{◌≡◌, [], Some, None, IfOk, MatchResult, if◌then◌else◌};
ghost use Rattle.std.specs.Prelude.{ℕ, List};
ghost use Rattle.ipg_edit_script.specs.Scripts.{IsScript, AreEdits, script_text};
ghost use Rattle.ipg_edit_script.specs.Reader.{start, closed, step, ended};
ghost use Rattle.ipg_edit_script.specs.Reading.{seen};
ghost use Rattle.ipg_edit_script.specs.declared.script.Edit.{Edit as Asked};
ghost use Rattle.ipg_reader.specs.declared.fault.Fault.TheVariants.{Memory};
ghost use Rattle.ipg_reader.specs.Faults.{IsFault};

use crate::pos::{Pos, ScriptTurn, turn_at};
use crate::script::Edit;
use ipg_num::List;
use ipg_reader::Fault;
use std::alloc::{AllocError, Global};
use std::mem;

/// The edits read so far, the bytes of the one at hand, and the place within its line.
#[derive(Drop)]
struct Reader {
    alloc: Global,
    edits: Vec<Edit>,
    with: Vec<u8>,
    at: Pos,
}

impl Reader {
    fn new(alloc: Global) -> Reader
        ensures { seen result ≡ start }
    {
        Reader {
            alloc,
            edits: Vec::new(alloc),
            with: Vec::new(alloc),
            at: Pos::Line,
        }
    }

    /// Hands out the bytes at hand, and begins others.
    fn take_bytes(&mut self) -> List<u8>
        ensures bytes { result ≡ (seen self.old).with }
        ensures rest { seen self.new ≡ record (seen self.old) { with = [] } }
    {
        let with = mem::replace(&mut self.with, Vec::new(self.alloc));
        List::from_vec(with)
    }

    /// Puts the edit at hand behind the others, and begins another line.
    fn close(&mut self, from: u32, to: u32) -> Result<(), AllocError>
        ensures { IfOk result (λ _. seen self.new ≡ closed from to (seen self.old)) }
    {
        let with = self.take_bytes();
        self.edits.push(Edit { from, to, with })?;
        self.at = Pos::Line;
        Ok(())
    }

    /// Takes a byte, if a script goes on with it.
    fn take(&mut self, b: u8) -> Result<bool, AllocError>
        ensures { IfOk result (λ on. step (seen self.old) b ≡ (if on then Some (seen self.new) else None)) }
    {
        match turn_at(self.at, b) {
            ScriptTurn::Stuck => Ok(false),
            ScriptTurn::To(at) => {
                self.at = at;
                Ok(true)
            }
            ScriptTurn::Add(byte, at) => {
                self.with.push(byte)?;
                self.at = at;
                Ok(true)
            }
            ScriptTurn::End(from, to) => {
                self.close(from, to)?;
                Ok(true)
            }
        }
    }

    /// The edits, where a script may end here.
    fn finish(self) -> Option<List<Edit>>
        ensures { result ≡ ended (seen self) }
    {
        match self.at {
            Pos::Line => Some(List::from_vec(self.edits)),
            _ => None,
        }
    }
}

/// The edits that a text is a script of.
///
/// # Errors
/// `At` has the first byte that no script goes on with, or the text's length where it ends too early.
pub fn read(alloc: Global, text: &[u8]) -> Result<List<Edit>, Fault>
    ensures is { MatchResult result (λ edits. IsScript edits text.now) (λ fault. IsFault AreEdits script_text text.now fault) }
    ensures back { (edits : List Asked) → IsScript edits text.now → MatchResult result (λ found. found ≡ edits) (λ fault. fault ≡ Memory) }
{
    let mut reader = Reader::new(alloc);
    let mut next = 0;
    while next < text.len() {
        if !reader.take(text[next])? {
            return Err(Fault::At(next as u64));
        }
        next += 1;
    }
    match reader.finish() {
        Some(edits) => Ok(edits),
        None => Err(Fault::At(next as u64)),
    }
}
