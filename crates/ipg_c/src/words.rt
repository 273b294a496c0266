//! The words that a caller hands over.
ghost use Rattle.std.specs.Prelude.{◌≡◌, IfOk, map};
ghost use Rattle.std.specs.String.{string_bytes};
ghost use Rattle.ipg_c.specs.Handed.{words_of, read_words};

use std::alloc::{AllocError, Global};
use std::str;

/// A word of a command line.
#[repr(C)]
pub struct Word<'a> {
    pub bytes: &'a [u8],
}

/// The words. Words that aren't all text are no words.
pub fn read(alloc: Global, words: &[Word<'_>]) -> Result<Vec<String>, AllocError>
    ensures { IfOk result (λ read. map string_bytes read.items ≡ read_words (words_of words.now)) }
{
    let mut read = Vec::with_capacity(alloc, words.len())?;
    for word in words {
        match str::from_utf8(word.bytes) {
            Ok(text) => read.push(String::from_str(alloc, text)?)?,
            Err(_) => return Ok(Vec::new(alloc)),
        }
    }
    Ok(read)
}
