//! What stands at a place of a text.
ghost use Rattle.std.specs.Prelude.{◌≡◌, IfOk};
ghost use Rattle.ipg_app_explain.specs.Word as spec;
ghost use Rattle.ipg_app_explain.specs.Word.{first_name};

use crate::spot::{behind, seen_byte, upto};
use std::alloc::{AllocError, Global};

pub const TOLD_BYTES: usize = 64;

fn is_name_byte(byte: u8) -> bool
    ensures { result ≡ spec.is_name_byte byte }
{
    matches!(byte, b'a'..=b'z' | b'A'..=b'Z' | b'0'..=b'9' | b'_')
}

/// The name, or the number, that the bytes begin with.
fn first_name(bytes: &[u8]) -> &[u8]
    ensures { result.now ≡ first_name bytes.now }
{
    for (n, byte) in bytes.iter().enumerate() {
        if !is_name_byte(*byte) {
            return &bytes[..n];
        }
    }
    bytes
}

/// The name at the place, or its byte; nothing at the text's end.
pub fn word_at(alloc: Global, text: &[u8], at: u32) -> Result<Vec<u8>, AllocError>
    ensures { IfOk result (λ word. word.items ≡ spec.word_at text.now at) }
{
    let bytes = behind(text, at as usize);
    let name = first_name(bytes);
    if !name.is_empty() {
        return Vec::from_slice(alloc, upto(name, TOLD_BYTES));
    }
    let mut word = Vec::new(alloc);
    if let Some(byte) = bytes.first() {
        word.push(seen_byte(*byte))?;
    }
    Ok(word)
}
