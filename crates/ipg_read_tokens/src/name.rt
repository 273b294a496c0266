ghost use Rattle.std.specs.Prelude.{◌≡◌, IfOk};
ghost use Rattle.ipg_read_tokens.specs.Lexical.{reserved_of, word};

use ipg_ast::{Name, Reserved, TokenKind};
use ipg_num::List;
use std::alloc::{AllocError, Global};

/// The name of these bytes, or the reserved word.
pub fn word_of(alloc: Global, bytes: &[u8]) -> Result<TokenKind, AllocError>
    ensures { IfOk result (λ kind. kind ≡ word bytes.now) }
{
    match reserved_of(bytes) {
        Some(reserved) => Ok(TokenKind::Word(reserved)),
        None => Ok(TokenKind::Name(copied(alloc, bytes)?)),
    }
}

pub fn copied(alloc: Global, bytes: &[u8]) -> Result<Name, AllocError>
    ensures { IfOk result (λ name. name ≡ bytes.now) }
{
    Ok(List::from_vec(Vec::from_slice(alloc, bytes)?))
}

fn reserved_of(bytes: &[u8]) -> Option<Reserved>
    ensures { result ≡ reserved_of bytes.now }
{
    if bytes == b"for".as_slice() {
        Some(Reserved::For)
    } else if bytes == b"to".as_slice() {
        Some(Reserved::To)
    } else if bytes == b"do".as_slice() {
        Some(Reserved::Do)
    } else if bytes == b"switch".as_slice() {
        Some(Reserved::Switch)
    } else if bytes == b"case".as_slice() {
        Some(Reserved::Case)
    } else if bytes == b"else".as_slice() {
        Some(Reserved::Else)
    } else if bytes == b"where".as_slice() {
        Some(Reserved::Where)
    } else if bytes == b"start".as_slice() {
        Some(Reserved::Start)
    } else if bytes == b"end".as_slice() {
        Some(Reserved::End)
    } else if bytes == b"EOI".as_slice() {
        Some(Reserved::Eoi)
    } else if bytes == b"tok".as_slice() {
        Some(Reserved::Tok)
    } else if bytes == b"many".as_slice() {
        Some(Reserved::Many)
    } else {
        None
    }
}
