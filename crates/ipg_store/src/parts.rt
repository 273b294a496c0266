//! The parts of a file.

ghost use Rattle.std.specs.Prelude.{◌≡◌, MatchResult};
ghost use Rattle.std.specs.Bool.{Decides};
ghost use Rattle.ipg_reader.specs.Laws.{HasCount};
ghost use Rattle.ipg_store.specs.File.{magic, file_with};
ghost use Rattle.ipg_store.specs.Steps.{IsPartsFault};

use crate::fault::LoadFault;

/// What each table file begins with.
pub(crate) const MAGIC: [u8; 8] = [b'i', b'p', b'g', b't', b'a', b'b', b'1', b'\n'];

/// The body, and the certificate's text behind it.
#[derive(Clone, Copy)]
pub(crate) struct Parts<'a> {
    pub body: &'a [u8],
    pub proof: &'a [u8],
}

fn is_magic(bytes: &[u8]) -> bool
    ensures { Decides result (bytes.now ≡ magic) }
{
    bytes == MAGIC.as_slice()
}

/// The parts, by the body's length in the file.
pub(crate) fn split(file: &[u8]) -> Result<Parts<'_>, LoadFault>
    ensures { MatchResult result (λ parts. (file.now ≡ file_with parts.body.now parts.proof.now) × HasCount parts.body.now) (IsPartsFault file.now) }
{
    let Some((first, behind)) = file.split_first_chunk::<8>() else {
        return Err(LoadFault::Magic);
    };
    if !is_magic(first.as_slice()) {
        return Err(LoadFault::Magic);
    }
    let Some((count, behind)) = behind.split_first_chunk::<8>() else {
        return Err(LoadFault::Length);
    };
    match behind.split_at_checked(u64::from_le_bytes(*count) as usize) {
        Some((body, proof)) => Ok(Parts { body, proof }),
        None => Err(LoadFault::Length),
    }
}
