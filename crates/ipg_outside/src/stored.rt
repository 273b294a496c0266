//! Files in memory by name, and a reading of bytes up to a limit.
ghost use Rattle.std.specs.Prelude.{◌≡◌, ◌^◌, ◌<◌, [], ◌∷◌, ◌++◌, OnOk, OnErr};
ghost use Rattle.std.specs.Option.{option_copied};
ghost use Rattle.ipg_outside.specs.Files.{holds};
ghost use Rattle.ipg_outside.specs.Shelf.{told_in, told_found, reading_of, Gives};

use crate::files::FileFault;
use std::alloc::{AllocError, Global};
use std::marker::Model;

#[derive(Drop)]
struct StoredFile {
    name: String,
    bytes: Vec<u8>,
}

/// Files by name.
#[derive(Drop)]
pub struct StoredFiles {
    alloc: Global,
    // The last file of a name counts.
    files: Vec<StoredFile>,
}

impl Model for StoredFiles {
    ghost use Rattle.std.specs.Prelude.{ℕ, List, map};
    ghost use Rattle.ipg_outside.specs.Stored.{name_and_bytes};

    ghost Value = { List (List ℕ × List ℕ) };

    ghost view = { λ s. map name_and_bytes s.files.items };
}

impl StoredFiles {
    pub fn new(alloc: Global) -> StoredFiles
        ensures { result ≡ [] }
    {
        StoredFiles {
            alloc,
            files: Vec::new(alloc),
        }
    }

    /// Stores a file, in place of one that had its name.
    pub fn add(&mut self, name: &str, bytes: &[u8]) -> Result<(), AllocError>
        ensures stored { OnOk result (self.new ≡ self.old ++ (name.now, bytes.now) ∷ []) }
        ensures refused { OnErr result (self.new ≡ self.old) }
    {
        let file = StoredFile {
            name: String::from_str(self.alloc, name)?,
            bytes: Vec::from_slice(self.alloc, bytes)?,
        };
        self.files.push(file)?;
        Ok(())
    }

    /// The bytes under a name, if any.
    pub fn find(&self, name: &str) -> Option<&[u8]>
        ensures { told_found (option_copied result) ≡ told_in name.now self.now }
    {
        let mut found = None;
        for file in &self.files {
            if name == file.name.as_str() {
                found = Some(file.bytes.as_slice());
            }
        }
        found
    }
}

pub fn read_limited(alloc: Global, bytes: &[u8], limit: u64) -> Result<Vec<u8>, FileFault>
    requires { limit < 2 ^ 62 }
    ensures { Gives result (reading_of (holds bytes.now) limit) }
{
    let limit = limit as usize;
    if bytes.len() <= limit {
        Ok(Vec::from_slice(alloc, bytes)?)
    } else {
        Err(FileFault::TooLarge(Vec::from_slice(alloc, &bytes[..limit + 1])?))
    }
}
