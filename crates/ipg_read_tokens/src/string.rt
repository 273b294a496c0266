ghost use Rattle.std.specs.Prelude.{◌≡◌, ◌≤◌, ◌+◌, length, drop, IfOk};
ghost use Rattle.ipg_read_tokens.specs.Lexical.{item, escape, string_front};
ghost use Rattle.ipg_read_tokens.specs.Within.{ItemWithin};

use crate::class::is_hexadecimal;
use crate::front::Front;
use crate::number::digit_of;
use ipg_ast::TokenKind;
use ipg_num::List;
use std::alloc::{AllocError, Global};

/// An item of a string: its end, a byte and how many bytes of the text it takes, or none.
#[derive(Clone, Copy)]
pub enum Item {
    End,
    Byte(u8, usize),
    Bad,
}

/// The string whose opening quote stands before `after`.
pub fn string_at(alloc: Global, after: &[u8]) -> Result<Front, AllocError>
    ensures { IfOk result (λ front. front ≡ string_front after.now) }
{
    let mut bytes = Vec::new(alloc);
    let mut at = 0;
    while at < after.len() {
        match item_of(after[at], tail(after, at + 1)) {
            Item::End => return Ok(Front::Token(TokenKind::Text(List::from_vec(bytes)), at + 2)),
            Item::Byte(byte, width) => {
                bytes.push(byte)?;
                at += width;
            }
            Item::Bad => return Ok(Front::Nothing),
        }
    }
    Ok(Front::Nothing)
}

pub fn tail(bytes: &[u8], from: usize) -> &[u8]
    requires { from ≤ length bytes.now }
    ensures { result.now ≡ drop from bytes.now }
{
    &bytes[from..]
}

pub fn item_of(b: u8, after: &[u8]) -> Item
    ensures is { result ≡ item b after.now }
    ensures within { ItemWithin result (length after.now + 1) }
{
    match b {
        b'"' => Item::End,
        b'\\' => escape_of(after),
        b' '..=b'~' => Item::Byte(b, 1),
        _ => Item::Bad,
    }
}

fn escape_of(after: &[u8]) -> Item
    ensures is { result ≡ escape after.now }
    ensures within { ItemWithin result (length after.now + 1) }
{
    match after {
        [b, h, l, ..] => {
            if *b == b'"' || *b == b'\\' {
                Item::Byte(*b, 2)
            } else if *b == b'x' && is_hexadecimal(*h) && is_hexadecimal(*l) {
                Item::Byte((digit_of(*h) * 16 + digit_of(*l)) as u8, 4)
            } else {
                Item::Bad
            }
        }
        [b, ..] => {
            if *b == b'"' || *b == b'\\' {
                Item::Byte(*b, 2)
            } else {
                Item::Bad
            }
        }
        _ => Item::Bad,
    }
}
