//! An input, and whatever else is read that keeps an input's limit.
ghost use Rattle.std.specs.Prelude.{◌≡◌, ◌≤◌, ◌^◌, ℕ, List};
ghost use Rattle.ipg_outside.specs.Files.{ReadWhole};
ghost use Rattle.ipg_app_text.specs.Early.{AnswersOrSays};
ghost use Rattle.ipg_app_text.specs.Found.{input_in_file, silence};
ghost use Rattle.ipg_app_text.specs.Lines.{said_of};
ghost use Rattle.ipg_app_text.specs.Settles.{Settles};

use crate::early::Early;
use crate::said::{Settled, line, read_fault};
use crate::status::Status;
use ipg_outside::{FileFault, Files};
use std::alloc::Global;

/// The most bytes of an input: 1 GiB.
const MAX_INPUT: u64 = 1 << 30;

/// The bytes of a file.
///
/// # Errors
/// What is said of a file that can't be read, or is longer than an input may be.
pub fn input_in_file<F: Files>(
    alloc: Global,
    name: &str,
    files: &mut F,
) -> Result<Vec<u8>, Early<Settled>>
    ensures found { AnswersOrSays result (λ input. ReadWhole (F.told files.old name.now) (2 ^ 30) input.items)
        (λ settled. Settles (F.told files.old) (F.faults files.old) (F.faults files.new) (input_in_file name.now (λ input. silence)) (said_of settled)) }
    ensures told { (n : List ℕ) → F.told files.new n ≡ F.told files.old n }
    ensures counts { (n : List ℕ) → F.faults files.old n ≤ F.faults files.new n }
{
    match files.read_all(alloc, name, MAX_INPUT) {
        Ok(input) => Ok(input),
        Err(FileFault::Failed) => Err(Early::Said(read_fault(alloc)?)),
        Err(FileFault::TooLarge(_)) => {
            Err(Early::Said(line(alloc, Status::TooLarge, b"too large")?))
        }
        Err(FileFault::Memory) => Err(Early::Memory),
    }
}
