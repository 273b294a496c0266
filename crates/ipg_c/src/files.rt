//! The files that a caller hands over.
ghost use Rattle.std.specs.Prelude.{◌≡◌, ◌≢◌, ◌^◌, ◌<◌, IfOk, IfErr, Err, Option};
ghost use Rattle.std.specs.Option.{option_copied};
ghost use Rattle.ipg_outside.specs.Files.{ReadWhole, ReadCut, IfTooLarge, holds};
ghost use Rattle.ipg_c.specs.Handed.{found, told_of};

use ipg_outside::{FileFault, Files};
use std::alloc::Global;

/// A file in memory: its name and its bytes.
#[repr(C)]
pub struct File<'a> {
    pub name: &'a [u8],
    pub bytes: &'a [u8],
}

/// The caller's files. The first of a name counts; to read a name that none has is a fault.
#[derive(Drop)]
pub struct Handed<'a> {
    pub files: &'a [File<'a>],
    pub faults: u64,
}

fn find<'a>(files: &'a [File<'a>], name: &str) -> Option<&'a [u8]>
    ensures { option_copied result ≡ found name.now files.now }
{
    for file in files {
        if file.name == name.as_bytes() {
            return Some(file.bytes);
        }
    }
    None
}

/// All of the bytes, or one more than the limit.
fn read_limited(alloc: Global, bytes: &[u8], limit: u64) -> Result<Vec<u8>, FileFault>
    requires { limit < 2 ^ 62 }
    ensures whole { IfOk result (λ read. ReadWhole (holds bytes.now) limit read.items) }
    ensures cut { IfErr result (λ fault. IfTooLarge fault (ReadCut (holds bytes.now) limit)) }
    ensures failed { result ≢ Err FileFault.Failed }
{
    let limit = limit as usize;
    if bytes.len() <= limit {
        Ok(Vec::from_slice(alloc, bytes)?)
    } else {
        Err(FileFault::TooLarge(Vec::from_slice(alloc, &bytes[..limit + 1])?))
    }
}

impl<'a> Files for Handed<'a> {
    ghost use Rattle.ipg_c.specs.Handed.{told_of, faults_of};

    ghost told = { λ handed name. told_of name handed.files.now };

    ghost faults = { λ handed name. faults_of name handed.files.now handed.faults };

    fn read_all(&mut self, alloc: Global, name: &str, limit: u64) -> Result<Vec<u8>, FileFault> {
        match find(self.files, name) {
            Some(bytes) => read_limited(alloc, bytes, limit),
            None => {
                self.faults = self.faults.saturating_add(1);
                Err(FileFault::Failed)
            }
        }
    }
}
