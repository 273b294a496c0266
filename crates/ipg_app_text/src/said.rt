//! What is said: a status, and a text.
ghost use Rattle.std.specs.Prelude.{◌≡◌, IfOk};
ghost use Rattle.ipg_app_text.specs.Said as spec;
ghost use Rattle.ipg_app_text.specs.Said.{line_said};
ghost use Rattle.ipg_app_text.specs.Lines.{said_of};

use crate::status::Status;
use std::alloc::{AllocError, Global};

#[derive(Drop)]
pub struct Settled {
    pub status: Status,
    pub text: Vec<u8>,
}

/// A status with a line of its own.
pub fn line(alloc: Global, status: Status, words: &[u8]) -> Result<Settled, AllocError>
    ensures { IfOk result (λ settled. said_of settled ≡ line_said status words.now) }
{
    let mut text = Vec::from_slice(alloc, words)?;
    text.push(b'\n')?;
    Ok(Settled { status, text })
}

/// What is said of a file that can't be read.
pub fn read_fault(alloc: Global) -> Result<Settled, AllocError>
    ensures { IfOk result (λ settled. said_of settled ≡ spec.read_fault) }
{
    line(alloc, Status::ReadFault, b"read fault")
}

/// What is said of words that are no command.
pub fn usage(alloc: Global) -> Result<Settled, AllocError>
    ensures { IfOk result (λ settled. said_of settled ≡ spec.usage) }
{
    line(alloc, Status::Usage, b"usage")
}
