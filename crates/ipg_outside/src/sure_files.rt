//! Files in memory that never fail.
ghost use Rattle.std.specs.Prelude.{◌≡◌, ℕ, List, [], ◌∷◌, ◌++◌, if◌then◌else◌, OnOk, OnErr};
ghost use Rattle.std.specs.Str.{bytes_eq};
ghost use Rattle.ipg_outside.specs.Shelf.{bytes_in};

use crate::files::{FileFault, Files};
use crate::stored::{StoredFiles, read_limited};
use std::alloc::{AllocError, Global};
use std::marker::Model;

/// Files in memory. A name that was not added holds the empty list.
#[derive(Drop)]
pub struct SureFiles {
    files: StoredFiles,
}

impl Model for SureFiles {
    ghost use Rattle.std.specs.Prelude.{ℕ, List};

    ghost Value = { List (List ℕ × List ℕ) };

    ghost view = { λ s. s.files };
}

impl SureFiles {
    /// No file yet.
    pub fn new(alloc: Global) -> SureFiles
        ensures { result ≡ [] }
    {
        SureFiles {
            files: StoredFiles::new(alloc),
        }
    }

    /// Stores a file, in place of one that had its name.
    pub fn add(&mut self, name: &str, bytes: &[u8]) -> Result<(), AllocError>
        ensures stored { OnOk result (self.new ≡ self.old ++ (name.now, bytes.now) ∷ []) }
        ensures told { OnOk result ((n : List ℕ) → bytes_in n self.new ≡ (if bytes_eq n name.now then bytes.now else bytes_in n self.old)) }
        ensures refused { OnErr result (self.new ≡ self.old) }
    {
        self.files.add(name, bytes)
    }

    fn bytes_under(&self, name: &str) -> &[u8]
        ensures { result.now ≡ bytes_in name.now self.now }
    {
        match self.files.find(name) {
            None => &[],
            Some(bytes) => bytes,
        }
    }
}

impl Files for SureFiles {
    ghost use Rattle.std.specs.Prelude.{◌≡◌, ◌^◌, ◌<◌, IfOk, IfErr, IsErrOf};
    ghost use Rattle.ipg_outside.specs.Files.{ReadWhole, ReadCut, IfTooLarge, holds};
    ghost use Rattle.ipg_outside.specs.Shelf.{bytes_in, reading_of, Gives};

    ghost told = { λ files name. holds (bytes_in name files) };

    ghost faults = { λ _ _. 0 };

    fn read_all(&mut self, alloc: Global, name: &str, limit: u64) -> Result<Vec<u8>, FileFault>
        requires { limit < 2 ^ 62 }
        ensures whole { IfOk result (λ bytes. ReadWhole (holds (bytes_in name.now self.old)) limit bytes.items) }
        ensures cut { IfErr result (λ fault. IfTooLarge fault (ReadCut (holds (bytes_in name.now self.old)) limit)) }
        ensures failed { IsErrOf result FileFault.Failed → ⊥ }
        ensures gives { Gives result (reading_of (holds (bytes_in name.now self.old)) limit) }
        ensures after { self.new ≡ self.old }
    {
        read_limited(alloc, self.bytes_under(name), limit)
    }
}
