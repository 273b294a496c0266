ghost use Rattle.std.specs.Prelude.{◌≡◌, length, IfOk};
ghost use Rattle.ipg_read_tokens.specs.Lexical.{front_of, name_front};

use crate::class::{Class, is_digit, is_letter, is_white};
use crate::name::word_of;
use crate::number::number_at;
use crate::string::string_at;
use crate::symbol::symbol_at;
use ipg_ast::TokenKind;
use std::alloc::{AllocError, Global};

/// What begins at the front of bytes, and how many it takes.
#[derive(Drop)]
pub enum Front {
    Nothing,
    Blank(usize),
    /// A number above 2^63 - 1.
    Large(usize),
    Token(TokenKind, usize),
}

pub fn front_at(alloc: Global, bytes: &[u8]) -> Result<Front, AllocError>
    ensures { IfOk result (λ front. front ≡ front_of bytes.now) }
{
    match bytes {
        [] => Ok(Front::Nothing),
        [b, after @ ..] => {
            if is_white(*b) {
                Ok(Front::Blank(Class::White.run(bytes)))
            } else if *b == b'#' {
                Ok(Front::Blank(Class::Comment.run(bytes)))
            } else if is_letter(*b) {
                name_at(alloc, bytes)
            } else if is_digit(*b) {
                Ok(number_at(bytes))
            } else if *b == b'"' {
                string_at(alloc, after)
            } else {
                Ok(symbol_at(*b, after))
            }
        }
    }
}

fn name_at(alloc: Global, bytes: &[u8]) -> Result<Front, AllocError>
    ensures { IfOk result (λ front. front ≡ name_front bytes.now) }
{
    let width = Class::Naming.run(bytes);
    Ok(Front::Token(word_of(alloc, &bytes[..width])?, width))
}
