//! What is read.
ghost use Rattle.std.specs.Prelude.{◌≡◌, ℕ, ◌^◌, ◌<◌, ◌≤◌, List, IfOk, IfErr, IsErrOf};

use std::alloc::{AllocError, Global};

/// Why a file was not read.
#[derive(Debug, Drop)]
pub enum FileFault {
    Failed,
    /// The file has more bytes than the limit; its first ones, one more than that.
    TooLarge(Vec<u8>),
    Memory,
}

impl From<AllocError> for FileFault {
    ghost use Rattle.std.specs.Prelude.{◌≡◌};
    ghost use Rattle.ipg_outside.specs.declared.files.FileFault.TheVariants.{Memory};

    ghost from_gives = { λ _ fault. fault ≡ Memory };

    fn from(_: AllocError) -> FileFault {
        FileFault::Memory
    }
}

/// Files by name. No call changes what is told.
pub trait Files {
    ghost use Rattle.ipg_outside.specs.Faults.{Rose};
    ghost use Rattle.ipg_outside.specs.Files.{Told, ReadWhole, ReadCut, IfTooLarge};

    /// What is told of a name.
    ghost told: { Self → List ℕ → Told };

    /// How many readings of a name have failed. It never falls.
    ghost faults: { Self → List ℕ → ℕ };

    /// Reads a whole file of at most `limit` bytes.
    fn read_all(&mut self, alloc: Global, name: &str, limit: u64) -> Result<Vec<u8>, FileFault>
        requires { limit < 2 ^ 62 }
        ensures whole { IfOk result (λ bytes. ReadWhole (told self.old name.now) limit bytes.items) }
        ensures cut { IfErr result (λ fault. IfTooLarge fault (ReadCut (told self.old name.now) limit)) }
        ensures failed { IsErrOf result FileFault.Failed → Rose (faults self.old name.now) (faults self.new name.now) }
        ensures told { (n : List ℕ) → told self.new n ≡ told self.old n }
        ensures counts { (n : List ℕ) → faults self.old n ≤ faults self.new n };
}
