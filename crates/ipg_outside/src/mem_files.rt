//! Files in memory, some of whose readings fail.
ghost use Rattle.std.specs.Prelude.{◌≡◌, ℕ, ◌^◌, ◌<◌, ◌≤◌, List, [], ◌∷◌, ◌++◌, if◌then◌else◌, IfOk, OnOk, OnErr};
ghost use Rattle.std.specs.Str.{bytes_eq};
ghost use Rattle.ipg_outside.specs.Files.{holds};
ghost use Rattle.ipg_outside.specs.Shelf.{told_in, reading, Gives, counted, is_failed_of};

use crate::files::{FileFault, Files};
use crate::stored::{StoredFiles, read_limited};
use std::alloc::{AllocError, Global};
use std::marker::Model;

/// Files in memory. The readings of given numbers fail.
#[derive(Drop)]
pub struct MemFiles {
    files: StoredFiles,
    fail: Vec<u64>,
    calls: u64,
    faults: u64,
}

impl Model for MemFiles {
    ghost use Rattle.ipg_outside.specs.Shelf.{Shelf};

    ghost Value = { Shelf };

    ghost view = { λ s. record { files = s.files; fail = s.fail.items; calls = s.calls; faults = s.faults } };
}

impl MemFiles {
    /// No file yet; the calls of `read_all` whose number from 0 is in `fail` are Failed.
    pub fn new(alloc: Global, fail: &[u64]) -> Result<MemFiles, AllocError>
        ensures { IfOk result (λ shelf. shelf ≡ record { files = []; fail = fail.now; calls = 0; faults = 0 }) }
    {
        Ok(MemFiles {
            files: StoredFiles::new(alloc),
            fail: Vec::from_slice(alloc, fail)?,
            calls: 0,
            faults: 0,
        })
    }

    /// Stores a file, in place of one that had its name.
    pub fn add(&mut self, name: &str, bytes: &[u8]) -> Result<(), AllocError>
        ensures stored { OnOk result (self.new ≡ record self.old { files = self.old.files ++ (name.now, bytes.now) ∷ [] }) }
        ensures told { OnOk result ((n : List ℕ) → told_in n self.new.files ≡ (if bytes_eq n name.now then holds bytes.now else told_in n self.old.files)) }
        ensures refused { OnErr result (self.new ≡ self.old) }
    {
        self.files.add(name, bytes)
    }
}

impl MemFiles {
    fn answer(&self, alloc: Global, name: &str, limit: u64) -> Result<Vec<u8>, FileFault>
        requires { limit < 2 ^ 62 }
        ensures { Gives result (reading self.now name.now limit) }
    {
        if self.fail.contains(&self.calls) {
            return Err(FileFault::Failed);
        }
        match self.files.find(name) {
            None => Err(FileFault::Failed),
            Some(bytes) => read_limited(alloc, bytes, limit),
        }
    }

    fn count(&mut self, has_failed: bool)
        ensures counted { self.new ≡ counted self.old has_failed }
        ensures grows { self.old.faults ≤ self.new.faults }
    {
        self.calls = self.calls.saturating_add(1);
        if has_failed {
            self.faults = self.faults.saturating_add(1);
        }
    }
}

fn is_failed(answer: &Result<Vec<u8>, FileFault>) -> bool
    ensures { result ≡ is_failed_of answer.now }
{
    matches!(answer, Err(FileFault::Failed))
}

impl Files for MemFiles {
    ghost use Rattle.std.specs.Prelude.{◌≡◌, ℕ, ◌^◌, ◌<◌, ◌≤◌, List, IfOk, IfErr, IsErrOf};
    ghost use Rattle.ipg_outside.specs.Faults.{Rose};
    ghost use Rattle.ipg_outside.specs.Files.{ReadWhole, ReadCut, IfTooLarge};
    ghost use Rattle.ipg_outside.specs.Shelf.{told_in, reading, Gives, counted, is_failed_of};

    ghost told = { λ shelf name. told_in name shelf.files };

    ghost faults = { λ shelf name. shelf.faults };

    fn read_all(&mut self, alloc: Global, name: &str, limit: u64) -> Result<Vec<u8>, FileFault>
        requires { limit < 2 ^ 62 }
        ensures whole { IfOk result (λ bytes. ReadWhole (told_in name.now self.old.files) limit bytes.items) }
        ensures cut { IfErr result (λ fault. IfTooLarge fault (ReadCut (told_in name.now self.old.files) limit)) }
        ensures failed { IsErrOf result FileFault.Failed → Rose self.old.faults self.new.faults }
        ensures told { (n : List ℕ) → told_in n self.new.files ≡ told_in n self.old.files }
        ensures counts { (n : List ℕ) → self.old.faults ≤ self.new.faults }
        ensures gives { Gives result (reading self.old name.now limit) }
        ensures after { self.new ≡ counted self.old (is_failed_of result) }
    {
        let answer = self.answer(alloc, name, limit);
        self.count(is_failed(&answer));
        answer
    }
}
